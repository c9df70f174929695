//! Two logs of a node, in words.

use crate::entry::{add_signed_digest, add_verdict, kind_name};
use crate::facts::Facts;
use crate::places::{Numbers, add_number, add_word};
use crate::roster::node_fact;
use challenge::{Fork, Showing, ShownLink};
use secure_log::{Authenticator, LogVersion, Roster};

/// What a fork charges a node with: by one showing alone it is another one.
pub(crate) fn fork_words(fork: &Fork) -> &'static str {
    match fork.b {
        Some(_) => "it keeps two logs",
        None => "its log begins after another hash than 32 zero bytes",
    }
}

/// Adds what the showings of a fork say. Of one showing alone its number isn't looked at.
pub(crate) fn add_showings(facts: &mut Facts, roster: &Roster, fork: &Fork) {
    if fork.b.is_some() {
        facts.place("at", fork.at.get());
    }
    facts.words(
        "contents",
        "not in the file: of the entries between it has the kinds and the digests of the contents alone",
    );
    facts.list("showings");
    add_showing(facts, roster, fork.log_version, &fork.a);
    if let Some(b) = &fork.b {
        add_showing(facts, roster, fork.log_version, b);
    }
    facts.end();
}

fn add_showing(facts: &mut Facts, roster: &Roster, version: LogVersion, showing: &Showing) {
    facts.item();
    add_showing_parts(facts, roster, version, showing);
    facts.end();
}

/// Adds what a showing of a log of this version says.
pub(crate) fn add_showing_parts(
    facts: &mut Facts,
    roster: &Roster,
    version: LogVersion,
    showing: &Showing,
) {
    facts.number("node", u64::from(showing.node()));
    facts.place("first", showing.first());
    facts.hex("hash before it", showing.opening());
    add_links(facts, showing);
    add_closing(facts, roster, version, showing.closing());
}

/// Adds a showing's links, by their numbers.
fn add_links(facts: &mut Facts, showing: &Showing) {
    facts.list("links");
    let mut numbers = Numbers::from(showing.first());
    for link in showing.links() {
        let number = numbers.after(link.skipped());
        add_link(facts, number, link);
    }
    facts.end();
}

fn add_link(facts: &mut Facts, number: Option<u64>, link: &ShownLink) {
    facts.item();
    add_number(facts, number, link.skipped());
    facts.words("kind", kind_name(link.kind().number()));
    facts.hex("digest of its content", link.content());
    facts.end();
}

/// Adds what closes a log of this version or a part of one: what it says, who is to have signed it, and
/// whether that verifies by the node's key.
pub(crate) fn add_closing(
    facts: &mut Facts,
    roster: &Roster,
    version: LogVersion,
    closing: &Authenticator,
) {
    facts.group("closing");
    facts.number("node", u64::from(closing.node));
    add_word(facts, "number", "skipped", version, closing.word.get());
    facts.hex("hash", &closing.hash);
    add_signed_digest(facts, closing.node, closing.word, &closing.hash, "hash");
    facts.number("leaf", u64::from(closing.signature.leaf()));
    node_fact(facts, "key of", roster, closing.node);
    add_verdict(
        facts,
        roster,
        closing.node,
        closing.word,
        &closing.hash,
        &closing.signature,
    );
    facts.end();
}
