//! Serves sixteen clients as `nfsacc serve` does, and then sees that each reply in the server's log is the
//! one that one service alone owes, asked in the log's order and at the times that stand there, that nothing
//! else was sent, and that each reply was acknowledged. It prints a line for each record after the run's
//! lines, in the log's order: the node that it is from, the record, and the reply in the log, or a dash where
//! none was sent. The arguments are the heights of the trees of keys, the server's and a client's, and the
//! port; without them nothing is done.
#![tactic(auto)]

ghost use Rattle.std.specs.Prelude.{◌<◌, IfOk};
ghost use Rattle.serve_options.specs.Options.{AreServeOptions};

use anyhow::{Context, Result, bail, ensure};
use authenticator::LogVersion;
use nfs_items::Time;
use secure_log::log_entries::Entry;
use service::Service;
use serving::{Heights, Masters, Order, ServeFault, ServeOptions, Shelf, serve};
use std::alloc::Global;
use std::io::Write;
use std::net::{IpAddr, Ipv4Addr, SocketAddr, TcpListener};
use std::{env, io};

/// The number of the server.
const SERVER: u32 = 1;

/// How many clients are served.
const CLIENTS: u32 = 16;

/// The most that a tree of keys can be high.
const HIGHEST: u32 = 15;

/// Where nothing can be put, and what is said isn't kept.
#[derive(Drop)]
struct Nowhere;

impl Write for Nowhere {
    fn write(&mut self, bytes: &[u8]) -> io::Result<usize> {
        Ok(bytes.len())
    }

    fn flush(&mut self) -> io::Result<()> {
        Ok(())
    }
}

impl Shelf for Nowhere {
    fn put(&mut self, _name: &str, _bytes: &[u8]) -> io::Result<()> {
        Err(io::Error::from(io::ErrorKind::Unsupported))
    }
}

/// The entries of a server's log from some place on, with the service that has heard those before it.
#[derive(Drop)]
struct Walk<'a> {
    alloc: Global,
    entries: &'a [Entry],
    service: Service,
    /// How many replies aren't acknowledged so far.
    open: u64,
}

/// A record, the node that it is from, and the reply that was sent, if one was.
#[derive(Clone, Copy)]
struct Heard<'a> {
    from: u32,
    record: &'a [u8],
    reply: Option<&'a [u8]>,
}

impl<'a> Walk<'a> {
    /// Goes past an acknowledgement, or past a record with its clock reading and its reply, which is the one
    /// that is owed; gives the record.
    fn next(&mut self) -> Result<Option<Heard<'a>>> {
        match self.entries {
            [Entry::Ack { .. }, rest @ ..] => {
                self.open = self
                    .open
                    .checked_sub(1)
                    .context("an acknowledgement of nothing")?;
                self.entries = rest;
                Ok(None)
            }
            [
                Entry::Recv { from, body, .. },
                Entry::Clock {
                    seconds,
                    microseconds,
                },
                rest @ ..,
            ] => {
                let time = Time::new(*seconds, *microseconds).context("a reading that is no time")?;
                let owed = self.service.answer(self.alloc, time, body.bytes())?;
                let reply = self.reply(*from, owed, rest)?;
                Ok(Some(Heard {
                    from: *from,
                    record: body.bytes(),
                    reply,
                }))
            }
            other => bail!(
                "no record and no acknowledgement, {} entries before the end",
                other.len()
            ),
        }
    }

    /// The reply to a node at the front of what comes after its record's clock reading: it is the one that is
    /// owed.
    fn reply(
        &mut self,
        from: u32,
        owed: Option<Vec<u8>>,
        rest: &'a [Entry],
    ) -> Result<Option<&'a [u8]>> {
        match (owed, rest) {
            (None, _) => {
                self.entries = rest;
                Ok(None)
            }
            (Some(owed), [Entry::Send { to, body }, rest @ ..])
                if *to == from && body.bytes() == owed.as_slice() => {
                self.open = self.open.saturating_add(1);
                self.entries = rest;
                Ok(Some(body.bytes()))
            }
            _ => bail!(
                "not the reply that is owed, {} entries before the end",
                rest.len()
            ),
        }
    }
}

/// Prints a record with its reply.
fn tell<P: Print>(rt: &P, alloc: Global, heard: Heard<'_>) -> Result<()> {
    let from = heard.from;
    let record = hex::encode(alloc, heard.record)?;
    match heard.reply {
        Some(reply) => println!(rt; "{from} {record} {}", hex::encode(alloc, reply)?)?,
        None => println!(rt; "{from} {record} -")?,
    }
    Ok(())
}

/// Goes over a server's log, and prints all records with their replies.
fn walk_log<P: Print>(rt: &P, alloc: Global, entries: &[Entry]) -> Result<()> {
    let mut walk = Walk {
        alloc,
        entries,
        service: Service::opening(alloc, SERVER)?,
        open: 0,
    };
    for _ in 0..entries.len() {
        if walk.entries.is_empty() {
            break;
        }
        if let Some(heard) = walk.next()? {
            tell(rt, alloc, heard)?;
        }
    }
    ensure!(walk.open == 0, "replies are not acknowledged");
    Ok(())
}

/// A number below a limit.
fn number(words: &[String], place: usize, limit: u32) -> Result<u32>
    ensures { IfOk result (λ number. number < limit) }
{
    let word = words.get(place).context("too few words")?;
    let number = word.parse::<u32>().context("no number")?;
    ensure!(number < limit, "too great a number");
    Ok(number)
}

/// What a run is asked.
fn order_of(words: &[String]) -> Result<Order<'static>>
    ensures { IfOk result (λ order. AreServeOptions order.options) }
{
    let server = number(words, 1, HIGHEST + 1)?;
    let client = number(words, 2, HIGHEST + 1)?;
    ensure!(server > 0 && client > 0, "no height");
    Ok(Order {
        options: ServeOptions {
            connections: CLIENTS,
            heights: Heights { server, client },
            roster_out: None,
            evidence: None,
            progress: false,
            idle: None,
            base_out: None,
            check_every: None,
            log_version: LogVersion::One,
        },
        masters: Masters::Known,
        control: None,
    })
}

fn main(rt: HostRuntime) -> Result<()> {
    let alloc = rt.alloc();
    let words = env::args(&rt)?.collect::<Vec<String>>(alloc)?;
    if words.len() < 2 {
        return Ok(());
    }
    let order = order_of(&words)?;
    let port = number(&words, 3, 65536)? as u16;
    let address = SocketAddr::new(IpAddr::V4(Ipv4Addr::new(127, 0, 0, 1)), port);
    let listener = TcpListener::bind(&rt, address)?;
    let mut lines = io::writer(&rt);
    match serve(
        &rt, alloc, listener, &rt, &mut lines, Nowhere, Nowhere, &order,
    ) {
        Ok(finished) if finished.closed.is_ok() && finished.whole => {
            walk_log(&rt, alloc, finished.server.node().log().entries())
        }
        Ok(_) => bail!("the run was not whole"),
        Err(ServeFault::NoMemory) => bail!("out of memory"),
        Err(_) => bail!("the run came to no end"),
    }
}
