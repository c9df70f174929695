//! What passes between a gateway and a witness over one connection.

ghost use Rattle.std.specs.Prelude.{◌≡◌, [], Bool, IfOk, IfSome, List, OnErr, OnOk, ℕ};
ghost use Rattle.assurance.specs.Assured.{IsAssuredTo};
ghost use Rattle.assurance.specs.Exchanges.{Adds};
ghost use Rattle.assurance.specs.Learning.{said};
ghost use Rattle.assurance.specs.Passing.{Asked, HandedOut, IsRecorded, Passed, Passes, PassesNothing, Records, Showed, history, kept_as};
ghost use Rattle.assurance.specs.declared.learned.Learned.TheVariants.{BelowBase};

use crate::assured_to::AssuredTo;
use crate::keeper::Keeper;
use crate::learned::{Learned, said_by};
use crate::link::{LinkFault, WitnessLink};
use crate::replies::Replies;
use crate::shown::ShownOf;
use authenticator::Authenticator;
use std::alloc::{AllocError, Global};
use std::io;

/// What a witness says of what it was shown.
#[derive(Clone, Copy, Debug)]
pub struct Seen {
    pub says: Learned,
    /// Why it isn't kept, where it was to be and isn't.
    pub unkept: Option<io::Error>,
}

/// What passes between a gateway and a witness over one connection, which begins by the witness greeting with the gateway's
/// roster: which replies of a server were handed out, what the witness was shown of them, and what it was asked. Its type
/// keeps that it stands for what passed over the link, in its order.
#[derive(Drop)]
pub struct Exchanges<L: WitnessLink> {
    link: L,
    /// The server that is called.
    server: u32,
    replies: Replies,
    ghost recorded: { IsRecorded server (L.exchanges link) replies },
}

impl<L: WitnessLink + Drop> Exchanges<L> {
    /// Greets a witness by a link over which nothing was asked yet. `OtherRoster` comes where it goes by another roster.
    pub fn begin(alloc: Global, link: L, server: u32) -> Result<Exchanges<L>, LinkFault>
        requires { IfSome (L.exchanges link) (λ es. es ≡ []) }
        ensures { IfOk result (λ e. (e.server ≡ server) × Records server (L.exchanges e.link) [] e.replies) }
    {
        let mut link = link;
        match link.greet() {
            Ok(()) => Ok(Exchanges {
                link,
                server,
                replies: Replies::new(alloc),
            }),
            Err(fault) => Err(fault),
        }
    }
}

impl<L: WitnessLink> Exchanges<L> {
    /// A reply is handed out, which has this number in the server's log. Where a growth was refused nothing has passed.
    pub fn hand_out(&mut self, number: u64) -> Result<(), AllocError>
        ensures handed { OnOk result (Passes self.old.server (L.exchanges self.old.link) self.old.replies
            (HandedOut number) (L.exchanges self.new.link) self.new.replies) }
        ensures refused { OnErr result (PassesNothing self.old.server (L.exchanges self.old.link) self.old.replies
            (L.exchanges self.new.link) self.new.replies) }
        ensures server { self.new.server ≡ self.old.server }
    {
        self.replies.hand_out(number)
    }

    /// Shows the witness what a node signed, which is of this. What the server signed and the witness refuses as below
    /// its base is handed to the keeper, by its number, and nothing else is. After a fault no answer came, and nothing has passed.
    pub fn show<K: Keeper>(
        &mut self,
        keeper: &mut K,
        signed: &Authenticator,
        of: ShownOf,
    ) -> Result<Seen, LinkFault>
        ensures shown { IfOk result (λ seen. (answer : ℕ) × ((seen.says ≡ said answer)
            × Passes self.old.server (L.exchanges self.old.link) self.old.replies
            (Showed of signed.now answer) (L.exchanges self.new.link) self.new.replies)) }
        ensures kept { IfOk result (λ seen. seen.says ≡ BelowBase → signed.now.node ≡ self.old.server →
            Adds (K.handed keeper.old) (kept_as of signed.now) (K.handed keeper.new)) }
        ensures not_kept { IfOk result (λ seen. ¬ ((seen.says ≡ BelowBase) × (signed.now.node ≡ self.old.server)) →
            K.handed keeper.new ≡ K.handed keeper.old) }
        ensures failed { OnErr result ((L.exchanges self.new.link ≡ L.exchanges self.old.link)
            × (K.handed keeper.new ≡ K.handed keeper.old)) }
        ensures nothing { OnErr result (PassesNothing self.old.server (L.exchanges self.old.link) self.old.replies
            (L.exchanges self.new.link) self.new.replies) }
        ensures server { self.new.server ≡ self.old.server }
    {
        self.replies.reserve()?;
        let answer = self.link.show(signed)?;
        self.replies.note(self.server, signed, of, answer);
        let says = said_by(answer);
        if signed.node != self.server {
            return Ok(Seen { says, unkept: None });
        }
        Ok(Seen {
            says,
            unkept: keep(keeper, says, of, signed),
        })
    }

    /// Asks the witness what it says of the server. After a fault no answer came, and nothing has passed.
    pub fn ask(&mut self) -> Result<(), LinkFault>
        ensures asked { OnOk result ((exposed : Bool) × ((end : ℕ)
            × Passes self.old.server (L.exchanges self.old.link) self.old.replies
            (Asked self.old.server exposed end) (L.exchanges self.new.link) self.new.replies)) }
        ensures failed { OnErr result (L.exchanges self.new.link ≡ L.exchanges self.old.link) }
        ensures nothing { OnErr result (PassesNothing self.old.server (L.exchanges self.old.link) self.old.replies
            (L.exchanges self.new.link) self.new.replies) }
        ensures server { self.new.server ≡ self.old.server }
    {
        let told = self.link.ask(self.server)?;
        self.replies.note_told(self.server, told);
        Ok(())
    }

    /// Up to the greatest number K of the server's log for which this holds, if there is one: when it was asked last, the witness
    /// didn't call the server exposed, and had filed its log Sound up to K at least; and before it was asked, it had taken
    /// the signature of each reply up to K that has been handed out.
    pub fn assured(&self) -> AssuredTo
        ensures { (p : List Passed) → Records self.now.server (L.exchanges self.now.link) p self.now.replies →
            IsAssuredTo (history self.now.server p) result }
    {
        AssuredTo::new(self.replies.assured())
    }

    /// What the witness was shown of the gateway last, if it was shown something.
    pub fn own(&mut self) -> Result<Option<Authenticator>, LinkFault>
        ensures nothing { PassesNothing self.old.server (L.exchanges self.old.link) self.old.replies
            (L.exchanges self.new.link) self.new.replies }
        ensures server { self.new.server ≡ self.old.server }
    {
        self.link.own()
    }

    /// Hands the witness a packet that isn't about the replies: the number by which it answers.
    pub fn hand(&mut self, packet: &[u8]) -> Result<u32, LinkFault>
        ensures nothing { PassesNothing self.old.server (L.exchanges self.old.link) self.old.replies
            (L.exchanges self.new.link) self.new.replies }
        ensures server { self.new.server ≡ self.old.server }
    {
        self.link.hand(packet)
    }

    /// What the witness awaits of the gateway.
    pub fn wanted(&mut self) -> Result<L::Wanted, LinkFault>
        ensures nothing { PassesNothing self.old.server (L.exchanges self.old.link) self.old.replies
            (L.exchanges self.new.link) self.new.replies }
        ensures server { self.new.server ≡ self.old.server }
    {
        self.link.wanted()
    }
}

/// Hands the keeper what the server signed, where the witness refuses it as below its base: why it isn't kept, if it isn't.
fn keep<K: Keeper>(
    keeper: &mut K,
    says: Learned,
    of: ShownOf,
    signed: &Authenticator,
) -> Option<io::Error>
    ensures kept { says ≡ BelowBase → Adds (K.handed keeper.old) (kept_as of signed.now) (K.handed keeper.new) }
    ensures not_kept { ¬ (says ≡ BelowBase) → K.handed keeper.new ≡ K.handed keeper.old }
{
    match says {
        Learned::BelowBase => keeper.keep(of.number(), signed).err(),
        Learned::Taken | Learned::NoRoom | Learned::Refused => None,
    }
}
