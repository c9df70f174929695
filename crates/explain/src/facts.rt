//! What is said, as a list of names with values.

use crate::draft::Draft;
use crate::text::Text;
use std::alloc::{AllocError, Global};

/// One fact, or where facts that belong together begin and end.
#[derive(Drop)]
enum Fact {
    /// A text under a name.
    Text(&'static str, Text),
    /// A number under a name.
    Number(&'static str, u64),
    /// Nothing under a name, and the words that say so.
    Absent(&'static str, &'static str),
    /// Facts under a name, up to their `End`.
    Group(&'static str),
    /// Items under a name, up to `ListEnd`.
    List(&'static str),
    /// An item of a list: the facts up to their `End`.
    Item,
    End,
    ListEnd,
}

/// What was begun and hasn't ended.
#[derive(Clone, Copy)]
enum Open {
    /// A group, or an item of a list.
    Group,
    List,
}

/// Facts in their order. They are shown as lines or as JSON, from the same list. Once memory is refused
/// nothing more is added, and nothing is shown.
#[derive(Drop)]
pub struct Facts {
    alloc: Global,
    facts: Vec<Fact>,
    open: Vec<Open>,
    /// Whether memory was refused.
    is_refused: bool,
}

impl Facts {
    /// No facts.
    pub fn new(alloc: Global) -> Facts {
        Facts {
            alloc,
            facts: Vec::new(alloc),
            open: Vec::new(alloc),
            is_refused: false,
        }
    }

    /// What gives them their memory.
    pub fn alloc(&self) -> Global {
        self.alloc
    }

    /// Says that memory was refused for what is to be added.
    pub fn refuse(&mut self) {
        self.is_refused = true;
    }

    fn add(&mut self, fact: Fact) {
        self.is_refused = self.is_refused || self.facts.push(fact).is_err();
    }

    fn begin(&mut self, fact: Fact, open: Open) {
        self.is_refused = self.is_refused || self.open.push(open).is_err();
        self.add(fact);
    }

    /// A text to be added, with nothing in it.
    pub fn draft(&self) -> Draft {
        Draft::new(self.alloc, self.is_refused)
    }

    /// Adds a text under a name.
    pub fn text(&mut self, name: &'static str, draft: Draft) {
        match draft.finish() {
            Ok(text) => self.add(Fact::Text(name, text)),
            Err(AllocError) => self.refuse(),
        }
    }

    /// Adds a number under a name.
    pub fn number(&mut self, name: &'static str, number: u64) {
        self.add(Fact::Number(name, number));
    }

    /// Adds a number of 64 bits, as a place in a log has it. It is a text: not every reader of JSON keeps all
    /// digits of such a number.
    pub fn place(&mut self, name: &'static str, number: u64) {
        let mut draft = self.draft();
        draft.number(number);
        self.text(name, draft);
    }

    /// Adds that there is nothing under a name where there may be something, in the program's own words; as
    /// JSON it is null.
    pub fn absent(&mut self, name: &'static str, words: &'static str) {
        self.add(Fact::Absent(name, words));
    }

    /// Adds words of the program's own under a name.
    pub fn words(&mut self, name: &'static str, words: &str) {
        let mut draft = self.draft();
        draft.words(words);
        self.text(name, draft);
    }

    /// Adds bytes as hexadecimal digits.
    pub fn hex(&mut self, name: &'static str, bytes: &[u8]) {
        let mut draft = self.draft();
        draft.hex(bytes);
        self.text(name, draft);
    }

    /// Adds a mode in octal digits, and says so.
    pub fn octal(&mut self, name: &'static str, number: u32) {
        let mut draft = self.draft();
        draft.octal(number);
        self.text(name, draft);
    }

    /// Adds bytes of somebody else's, quoted.
    pub fn quoted(&mut self, name: &'static str, bytes: &[u8]) {
        let mut draft = self.draft();
        draft.quoted(bytes);
        self.text(name, draft);
    }

    /// Adds seconds and microseconds.
    pub fn time(&mut self, name: &'static str, seconds: u32, microseconds: u32) {
        let mut draft = self.draft();
        draft.number(u64::from(seconds));
        draft.words(" s ");
        draft.number(u64::from(microseconds));
        draft.words(" us");
        self.text(name, draft);
    }

    /// Begins facts under a name, up to `end`.
    pub fn group(&mut self, name: &'static str) {
        self.begin(Fact::Group(name), Open::Group);
    }

    /// Begins items under a name, up to `end`.
    pub fn list(&mut self, name: &'static str) {
        self.begin(Fact::List(name), Open::List);
    }

    /// Begins an item of a list, up to `end`.
    pub fn item(&mut self) {
        self.begin(Fact::Item, Open::Group);
    }

    /// Ends the group, the list or the item that was begun last; nothing where none is left.
    pub fn end(&mut self) {
        match self.open.pop() {
            Some(Open::Group) => self.add(Fact::End),
            Some(Open::List) => self.add(Fact::ListEnd),
            None => {}
        }
    }

    /// How many groups, lists and items haven't ended.
    pub fn depth(&self) -> usize {
        self.open.len()
    }

    /// Ends those that were begun last, until no more than so many are left.
    pub(crate) fn end_to(&mut self, depth: usize) {
        for _ in depth..self.open.len() {
            self.end();
        }
    }

    /// The facts as lines, each `name: value`; those of a group or an item stand two blanks further in.
    /// `AllocError` comes where memory was refused, for them or for the lines.
    pub fn lines(&self) -> Result<Text, AllocError> {
        let mut lines = Lines {
            draft: self.draft(),
            depth: 0,
            begins_item: false,
        };
        for fact in &self.facts {
            lines.add(fact);
        }
        lines.draft.finish()
    }

    /// The facts as members of an object of JSON (RFC 8259), each after a comma, without the object's braces.
    /// `AllocError` comes where memory was refused, for them or for the members.
    pub fn members(&self) -> Result<Text, AllocError> {
        let mut members = Members {
            draft: self.draft(),
            is_first: false,
        };
        for fact in &self.facts {
            members.add(fact);
        }
        members.draft.finish()
    }
}

/// Facts as lines.
#[derive(Drop)]
struct Lines {
    draft: Draft,
    /// How many groups, lists and items haven't ended.
    depth: u64,
    /// Whether the next line is the first of an item.
    begins_item: bool,
}

impl Lines {
    fn add(&mut self, fact: &Fact) {
        match fact {
            Fact::Text(name, text) => {
                self.name(name);
                self.draft.words(" ");
                self.draft.text(text);
                self.draft.end_line();
            }
            Fact::Number(name, number) => {
                self.name(name);
                self.draft.words(" ");
                self.draft.number(*number);
                self.draft.end_line();
            }
            Fact::Absent(name, words) => {
                self.name(name);
                self.draft.words(" ");
                self.draft.words(words);
                self.draft.end_line();
            }
            Fact::Group(name) | Fact::List(name) => {
                self.name(name);
                self.draft.end_line();
                self.depth = self.depth.saturating_add(1);
            }
            Fact::Item => {
                self.depth = self.depth.saturating_add(1);
                self.begins_item = true;
            }
            Fact::End | Fact::ListEnd => {
                self.depth = self.depth.saturating_sub(1);
                self.begins_item = false;
            }
        }
    }

    /// Begins a line with its name and a colon.
    fn name(&mut self, name: &str) {
        self.draft.indent(self.depth, self.begins_item);
        self.begins_item = false;
        self.draft.words(name);
        self.draft.words(":");
    }
}

/// Facts as members of an object.
#[derive(Drop)]
struct Members {
    draft: Draft,
    /// Whether the next one is the first after a brace or a bracket.
    is_first: bool,
}

impl Members {
    fn add(&mut self, fact: &Fact) {
        match fact {
            Fact::Text(name, text) => {
                self.name(name);
                self.draft.words("\"");
                self.draft.json(text);
                self.draft.words("\"");
            }
            Fact::Number(name, number) => {
                self.name(name);
                self.draft.number(*number);
            }
            Fact::Absent(name, _) => {
                self.name(name);
                self.draft.words("null");
            }
            Fact::Group(name) => {
                self.name(name);
                self.bracket("{", true);
            }
            Fact::List(name) => {
                self.name(name);
                self.bracket("[", true);
            }
            Fact::Item => {
                self.separate();
                self.bracket("{", true);
            }
            Fact::End => self.bracket("}", false),
            Fact::ListEnd => self.bracket("]", false),
        }
    }

    fn separate(&mut self) {
        if !self.is_first {
            self.draft.words(",");
        }
        self.is_first = false;
    }

    fn name(&mut self, name: &str) {
        self.separate();
        self.draft.json_name(name);
        self.draft.words(":");
    }

    /// Appends a brace or a bracket, which begins something or ends it.
    fn bracket(&mut self, bracket: &str, begins: bool) {
        self.is_first = begins;
        self.draft.words(bracket);
    }
}
