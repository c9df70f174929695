//! Books of a client whose log is of version 2: a number that a segment skips and an authenticator has, in
//! either order; two showings that make no fork; and windows, which count numbers. What the client hands
//! over, and the evidence that is owed, are written word by word.

use crate::answers::{Answer, Found, answers, evidence, refuses, replays, tells};
use crate::members::{CLIENT, keys};
use crate::words::{
    Claim, EntryWord, Part, ZEROS, books_with_gaps, fork_text, hash_after_all, learn_claim,
    shown_alone, sign,
};
use authenticator::Roster;
use challenge::{Evidence, Finding, NotAccepted, check_evidence, examine, read_evidence};
use merkle_keys::Signer;
use std::alloc::Global;
use witness_service::{Books, EventOf, Indication, Refusal};

/// The log that has entries at 2 and 4 alone.
const AROUND: Part<'static> = Part {
    from: 0,
    opening: ZEROS,
    words: &[(1, 2), (1, 4)],
};

/// Whether an authenticator that is learned is answered so.
pub fn learns_claim(alloc: Global, books: &mut Books, claim: &Claim, answer: Answer) -> bool {
    match learn_claim(alloc, claim) {
        Some(bytes) => answers(alloc, books, EventOf::Deliver(bytes), answer),
        None => false,
    }
}

/// Whether the client is asked for a part of its log, and the answer is accepted.
fn gives(alloc: Global, books: &mut Books, part: &Part<'_>, closing: &Claim) -> bool {
    let (_, last) = closing.word;
    let asked = Answer::Asked(u64::from(part.from) + 1, u64::from(last));
    match part.answer(alloc, closing) {
        Some(bytes) => {
            answers(alloc, books, EventOf::Audit(2), asked)
                && answers(alloc, books, EventOf::Deliver(bytes), Answer::Accepted)
        }
        None => false,
    }
}

/// Whether evidence has this text.
fn has_text(alloc: Global, evidence: &Evidence, text: &[u8]) -> bool {
    match evidence.evidence_text(alloc) {
        Ok(own) => own.as_slice() == text,
        Err(_) => false,
    }
}

/// Whether evidence is accepted, by its text.
fn is_accepted(alloc: Global, roster: &Roster, text: Vec<u8>) -> bool {
    match read_evidence(alloc, text) {
        Ok(evidence) => matches!(check_evidence(alloc, roster, &evidence), Ok(true)),
        Err(_) => false,
    }
}

/// Whether the client is exposed, by evidence with this text, which is accepted.
pub fn is_exposed_by(alloc: Global, books: &mut Books, text: Vec<u8>) -> bool {
    match evidence(alloc, books, 2) {
        Some(own) => {
            tells(alloc, books, 2, Indication::Exposed)
                && has_text(alloc, &own, &text)
                && is_accepted(alloc, books.roster(), text)
        }
        None => false,
    }
}

/// Whether the client is exposed by a fork at 3, of these showings in turn.
fn is_forked(alloc: Global, books: &mut Books, a: Option<Vec<u8>>, b: Option<Vec<u8>>) -> bool {
    let (Some(a), Some(b)) = (a, b) else {
        return false;
    };
    match fork_text(alloc, 3, &a, &b) {
        Some(text) => is_exposed_by(alloc, books, text),
        None => false,
    }
}

/// What the client signs of the log at 2, at 2 as if none were skipped before, and at 4.
#[derive(Drop)]
struct Claims {
    second: Claim,
    plain: Claim,
    fourth: Claim,
}

/// These, signed.
fn new_claims(alloc: Global, client: &mut Signer) -> Option<Claims> {
    let at_two = hash_after_all(&ZEROS, &[(1, 2)]);
    let at_four = hash_after_all(&ZEROS, AROUND.words);
    let second = sign(alloc, client, 2, (1, 2), at_two)?;
    let plain = sign(alloc, client, 2, (0, 2), at_two)?;
    let fourth = sign(alloc, client, 2, (1, 4), at_four)?;
    Some(Claims {
        second,
        plain,
        fourth,
    })
}

/// Whether an authenticator at 3 and the one at 4 are noted, and the client is exposed by the answer that
/// skips 3.
fn is_exposed_by_a_gap(alloc: Global, books: &mut Books, third: &Claim, claims: &Claims) -> bool {
    learns_claim(alloc, books, third, Answer::Noted)
        && learns_claim(alloc, books, &claims.fourth, Answer::Noted)
        && gives(alloc, books, &AROUND, &claims.fourth)
        && is_forked(
            alloc,
            books,
            shown_alone(alloc, third),
            AROUND.showing(alloc, &claims.fourth),
        )
}

/// Whether the client is trusted whose answer skips 3, and what it signs there at 2 is known, whatever is
/// skipped before.
fn is_trusted(alloc: Global, books: &mut Books, claims: &Claims) -> bool {
    learns_claim(alloc, books, &claims.fourth, Answer::Noted)
        && gives(alloc, books, &AROUND, &claims.fourth)
        && replays(alloc, books, 2, Found::Sound(0))
        && learns_claim(alloc, books, &claims.second, Answer::Already)
        && learns_claim(alloc, books, &claims.plain, Answer::Already)
        && tells(alloc, books, 2, Indication::Trusted)
}

/// Whether it is exposed then by an authenticator at 3.
fn is_exposed_in_a_gap(alloc: Global, books: &mut Books, third: &Claim, claims: &Claims) -> bool {
    is_trusted(alloc, books, claims)
        && learns_claim(alloc, books, third, Answer::Noted)
        && is_forked(
            alloc,
            books,
            AROUND.showing(alloc, &claims.fourth),
            shown_alone(alloc, third),
        )
}

/// What comes first of an authenticator and the segment that skips its number.
#[derive(Clone, Copy)]
enum First {
    Authenticator,
    Segment,
}

/// Whether the client of new books is exposed in this order.
fn exposes(alloc: Global, books: &mut Books, first: First, third: &Claim, claims: &Claims) -> bool {
    match first {
        First::Authenticator => is_exposed_by_a_gap(alloc, books, third, claims),
        First::Segment => is_exposed_in_a_gap(alloc, books, third, claims),
    }
}

/// The height of the client's tree of keys, of which 6 sign.
const HEIGHT: u32 = 3;

/// Books of a client with this root, of that height.
fn new_books(alloc: Global, root: &[u8; 32]) -> Option<Books> {
    books_with_gaps(alloc, (&[1; 32], 1), (root, HEIGHT))
}

/// Whether new books expose a client with this root in this order.
fn new_books_expose(
    alloc: Global,
    root: &[u8; 32],
    first: First,
    third: &Claim,
    claims: &Claims,
) -> bool {
    match new_books(alloc, root) {
        Some(mut books) => exposes(alloc, &mut books, first, third, claims),
        None => false,
    }
}

/// The same of a hash at an entry 3 that the client signs.
fn exposes_by(
    alloc: Global,
    client: &mut Signer,
    first: First,
    word: EntryWord,
    hash: [u8; 32],
    claims: &Claims,
) -> bool {
    let root = client.root();
    match sign(alloc, client, 2, word, hash) {
        Some(third) => new_books_expose(alloc, &root, first, &third, claims),
        None => false,
    }
}

/// The same of each of three hashes: that of another log whose first entry is 3, the one at 2, and any.
fn exposes_by_each(alloc: Global, client: &mut Signer, first: First, claims: &Claims) -> bool {
    for (word, hash) in [
        ((2, 3), hash_after_all(&ZEROS, &[(2, 3)])),
        ((0, 3), hash_after_all(&ZEROS, &[(1, 2)])),
        ((0, 3), [7; 32]),
    ] {
        if !exposes_by(alloc, client, first, word, hash, claims) {
            return false;
        }
    }
    true
}

/// The same of a client with new keys.
fn a_gap_exposes(alloc: Global, first: First) -> bool {
    let Some(mut client) = keys(alloc, CLIENT, HEIGHT) else {
        return false;
    };
    match new_claims(alloc, &mut client) {
        Some(claims) => exposes_by_each(alloc, &mut client, first, &claims),
        None => false,
    }
}

#[test]
fn a_segment_that_skips_a_learned_number_exposes(rt: HostRuntime) {
    assert!(rt; a_gap_exposes(rt.alloc(), First::Authenticator));
}

#[test]
fn an_authenticator_at_a_skipped_number_exposes(rt: HostRuntime) {
    assert!(rt; a_gap_exposes(rt.alloc(), First::Segment));
}

/// Texts of showings of the client.
#[derive(Drop)]
struct Showings {
    skipping: Vec<u8>,
    shifted: Vec<u8>,
    around: Vec<u8>,
    third: Vec<u8>,
    again: Vec<u8>,
    fourth: Vec<u8>,
}

/// One of them.
#[derive(Clone, Copy)]
enum Which {
    /// A log whose first entry is 6: 1 to 5 are skipped.
    Skipping,
    /// The same entry and closing after the number 3: 4 and 5 are skipped.
    Shifted,
    /// Entries at 2 and 4 alone.
    Around,
    /// An authenticator at 3 alone.
    Third,
    /// One with the same hash, whose word skips less.
    Again,
    /// The closing of the entries at 2 and 4 alone.
    Fourth,
}

impl Showings {
    /// The text of one.
    fn text(&self, which: Which) -> &[u8] {
        match which {
            Which::Skipping => &self.skipping,
            Which::Shifted => &self.shifted,
            Which::Around => &self.around,
            Which::Third => &self.third,
            Which::Again => &self.again,
            Which::Fourth => &self.fourth,
        }
    }
}

/// What the client signs at 6, twice at 3, and at 4.
#[derive(Drop)]
struct Closings {
    sixth: Claim,
    third: Claim,
    again: Claim,
    fourth: Claim,
}

/// These, signed.
fn new_closings(alloc: Global, client: &mut Signer) -> Option<Closings> {
    let at_three = hash_after_all(&ZEROS, &[(2, 3)]);
    let sixth = sign(alloc, client, 2, (5, 6), hash_after_all(&ZEROS, &[(5, 6)]))?;
    let third = sign(alloc, client, 2, (2, 3), at_three)?;
    let again = sign(alloc, client, 2, (0, 3), at_three)?;
    let fourth = sign(
        alloc,
        client,
        2,
        (1, 4),
        hash_after_all(&ZEROS, AROUND.words),
    )?;
    Some(Closings {
        sixth,
        third,
        again,
        fourth,
    })
}

/// The text of entries after a number that has a hash of zeros, with this closing.
fn after(alloc: Global, from: u32, words: &[EntryWord], closing: &Claim) -> Option<Vec<u8>> {
    let part = Part {
        from,
        opening: ZEROS,
        words,
    };
    part.showing(alloc, closing)
}

/// The texts, closed by these.
fn showings_of(alloc: Global, closings: &Closings) -> Option<Showings> {
    let skipping = after(alloc, 0, &[(5, 6)], &closings.sixth)?;
    let shifted = after(alloc, 3, &[(2, 6)], &closings.sixth)?;
    let around = AROUND.showing(alloc, &closings.fourth)?;
    let third = shown_alone(alloc, &closings.third)?;
    let again = shown_alone(alloc, &closings.again)?;
    let fourth = shown_alone(alloc, &closings.fourth)?;
    Some(Showings {
        skipping,
        shifted,
        around,
        third,
        again,
        fourth,
    })
}

/// A fork: its number, and its showings in turn.
type Row = (u32, Which, Which);

/// What is skipped is in the hash: a showing that is shifted doesn't end in what closes it.
const NOT_CLOSED: [Row; 2] = [
    (3, Which::Skipping, Which::Shifted),
    (3, Which::Shifted, Which::Skipping),
];

/// In turn no entry twice, one hash twice, zeros twice; then a number of which one showing shows nothing,
/// since an authenticator alone doesn't show what its word skips, and one above both.
const NO_TWO_MARKS: [Row; 6] = [
    (3, Which::Skipping, Which::Around),
    (3, Which::Third, Which::Again),
    (0, Which::Skipping, Which::Around),
    (3, Which::Skipping, Which::Fourth),
    (3, Which::Fourth, Which::Third),
    (7, Which::Skipping, Which::Around),
];

/// No entry and a hash, in either order.
const FORKS: [Row; 2] = [
    (2, Which::Skipping, Which::Around),
    (3, Which::Third, Which::Skipping),
];

/// Why evidence isn't accepted, and none where it is.
fn reason_in(finding: Finding) -> Option<NotAccepted> {
    match finding {
        Finding::NotAccepted(reason) => Some(reason),
        Finding::TwoMarks { .. } | Finding::Fault(_, _) => None,
    }
}

/// Whether evidence is accepted, or why not, as it should.
fn is_found(
    alloc: Global,
    roster: &Roster,
    evidence: &Evidence,
    reason: Option<NotAccepted>,
) -> bool {
    let is_accepted = match check_evidence(alloc, roster, evidence) {
        Ok(is_accepted) => is_accepted == reason.is_none(),
        Err(_) => false,
    };
    let is_its = match examine(alloc, roster, evidence) {
        Ok(finding) => reason_in(finding) == reason,
        Err(_) => false,
    };
    is_accepted && is_its
}

/// The same by the text of a fork.
fn is_found_in(alloc: Global, roster: &Roster, text: Vec<u8>, reason: Option<NotAccepted>) -> bool {
    match read_evidence(alloc, text) {
        Ok(evidence) => is_found(alloc, roster, &evidence, reason),
        Err(_) => false,
    }
}

/// The same of a row.
fn is_found_at(
    alloc: Global,
    roster: &Roster,
    showings: &Showings,
    row: Row,
    reason: Option<NotAccepted>,
) -> bool {
    let (at, a, b) = row;
    match fork_text(alloc, at, showings.text(a), showings.text(b)) {
        Some(text) => is_found_in(alloc, roster, text, reason),
        None => false,
    }
}

/// The same of each row.
fn are_found(
    alloc: Global,
    roster: &Roster,
    showings: &Showings,
    rows: &[Row],
    reason: Option<NotAccepted>,
) -> bool {
    for row in rows {
        if !is_found_at(alloc, roster, showings, *row, reason) {
            return false;
        }
    }
    true
}

/// The first table of which it doesn't hold; empty where it holds of all.
fn wrong_table(alloc: Global, roster: &Roster, showings: &Showings) -> &'static str {
    let not_closed = Some(NotAccepted::NotClosed);
    let no_two_marks = Some(NotAccepted::NoTwoMarks);
    if !are_found(alloc, roster, showings, &NOT_CLOSED, not_closed) {
        "not closed"
    } else if !are_found(alloc, roster, showings, &NO_TWO_MARKS, no_two_marks) {
        "no two marks"
    } else if !are_found(alloc, roster, showings, &FORKS, None) {
        "forks"
    } else {
        ""
    }
}

/// The same under the roster of a client with this root.
fn wrong_of_showings(alloc: Global, root: &[u8; 32], showings: &Showings) -> &'static str {
    match new_books(alloc, root) {
        Some(books) => wrong_table(alloc, books.roster(), showings),
        None => "memory",
    }
}

/// The texts, of a client with these keys.
fn showings_by(alloc: Global, client: &mut Signer) -> Option<Showings> {
    match new_closings(alloc, client) {
        Some(closings) => showings_of(alloc, &closings),
        None => None,
    }
}

/// The same of a client with new keys.
fn wrong_of_new(alloc: Global) -> &'static str {
    let Some(mut client) = keys(alloc, CLIENT, HEIGHT) else {
        return "memory";
    };
    match showings_by(alloc, &mut client) {
        Some(showings) => wrong_of_showings(alloc, &client.root(), &showings),
        None => "memory",
    }
}

#[test]
fn two_showings_fork_by_two_marks_alone(rt: HostRuntime) {
    let wrong = wrong_of_new(rt.alloc());
    assert!(rt; wrong.is_empty(), "{wrong}");
}

/// A client's keys, books of its roster, and where its log ends that has each 64th number alone.
#[derive(Drop)]
struct Sparse {
    client: Signer,
    books: Books,
    end: u32,
    hash: [u8; 32],
}

/// The words of so many entries after a number, each with 63 numbers skipped before it.
fn sparse_words(alloc: Global, end: u32, count: u32) -> Option<Vec<EntryWord>> {
    let mut words = Vec::new(alloc);
    for place in 0..count {
        let more = place.saturating_add(1).saturating_mul(64);
        if words.push((63, end.saturating_add(more))).is_err() {
            return None;
        }
    }
    Some(words)
}

/// What the client signs after entries with these words.
fn sign_after(
    alloc: Global,
    client: &mut Signer,
    before: &[u8; 32],
    words: &[EntryWord],
) -> Option<Claim> {
    let word = words.last()?;
    sign(alloc, client, 2, *word, hash_after_all(before, words))
}

impl Sparse {
    /// What the client signs at the last of so many entries after the end.
    fn closing(&mut self, alloc: Global, count: u32) -> Option<Claim> {
        match sparse_words(alloc, self.end, count) {
            Some(words) => sign_after(alloc, &mut self.client, &self.hash, &words),
            None => None,
        }
    }

    /// Whether an authenticator that is learned is noted.
    fn notes(&mut self, alloc: Global, claim: &Claim) -> bool {
        learns_claim(alloc, &mut self.books, claim, Answer::Noted)
    }

    /// Whether an audit is refused so.
    fn refuses_audit(&mut self, alloc: Global, refusal: Refusal) -> bool {
        refuses(alloc, &mut self.books, EventOf::Audit(2), refusal)
    }

    /// Whether the client is asked for these entries, which are audited.
    fn audits(&mut self, alloc: Global, words: &[EntryWord], closing: &Claim) -> bool {
        let part = Part {
            from: self.end,
            opening: self.hash,
            words,
        };
        gives(alloc, &mut self.books, &part, closing)
            && replays(alloc, &mut self.books, 2, Found::Sound(0))
    }

    /// The same of so many entries after the end, which is at the last of them then.
    fn goes_on(&mut self, alloc: Global, count: u32, closing: &Claim) -> bool {
        let is_audited = match sparse_words(alloc, self.end, count) {
            Some(words) => self.audits(alloc, &words, closing),
            None => false,
        };
        let (_, end) = closing.word;
        self.end = end;
        self.hash = closing.hash;
        is_audited
    }

    /// Whether so many entries after the end are audited once their closing is noted.
    fn audits_next(&mut self, alloc: Global, count: u32) -> bool {
        match self.closing(alloc, count) {
            Some(closing) => self.notes(alloc, &closing) && self.goes_on(alloc, count, &closing),
            None => false,
        }
    }

    /// Whether 4,160 is too far at first, then no more than 4,096 is asked for, and the rest after that.
    fn goes_by_windows(&mut self, alloc: Global, near: &Claim, far: &Claim) -> bool {
        self.notes(alloc, far)
            && self.refuses_audit(alloc, Refusal::TooFar)
            && self.notes(alloc, near)
            && self.goes_on(alloc, 64, near)
            && self.goes_on(alloc, 1, far)
    }

    /// The same of what the client signs there.
    fn has_windows(&mut self, alloc: Global) -> bool {
        match (self.closing(alloc, 64), self.closing(alloc, 65)) {
            (Some(near), Some(far)) => self.goes_by_windows(alloc, &near, &far),
            _ => false,
        }
    }

    /// Whether all numbers up to 65,536 are audited, in windows of 4,096.
    fn is_filled(&mut self, alloc: Global) -> bool {
        for _ in 0..14 {
            if !self.audits_next(alloc, 64) {
                return false;
            }
        }
        self.audits_next(alloc, 63) && self.end == 65_536
    }

    /// Whether the next entry isn't asked for.
    fn is_full(&mut self, alloc: Global) -> bool {
        match self.closing(alloc, 1) {
            Some(next) => {
                self.notes(alloc, &next) && self.refuses_audit(alloc, Refusal::BookFull)
            }
            None => false,
        }
    }
}

/// The height of the tree of keys of a client that signs 18 times.
const HIGHER: u32 = 5;

/// Before any step.
fn new_sparse(alloc: Global, client: Signer) -> Option<Sparse> {
    match books_with_gaps(alloc, (&[1; 32], 1), (&client.root(), HIGHER)) {
        Some(books) => Some(Sparse {
            client,
            books,
            end: 0,
            hash: ZEROS,
        }),
        None => None,
    }
}

/// Whether windows and the book's limit count numbers, for a client with these keys.
fn counts_numbers(alloc: Global, client: Signer) -> bool {
    match new_sparse(alloc, client) {
        Some(mut sparse) => {
            sparse.has_windows(alloc) && sparse.is_filled(alloc) && sparse.is_full(alloc)
        }
        None => false,
    }
}

/// The same of new keys.
fn numbers_are_counted(alloc: Global) -> bool {
    match keys(alloc, CLIENT, HIGHER) {
        Some(client) => counts_numbers(alloc, client),
        None => false,
    }
}

#[test]
fn windows_and_the_limit_of_a_book_count_numbers(rt: HostRuntime) {
    assert!(rt; numbers_are_counted(rt.alloc()));
}
