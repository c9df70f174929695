//! Replies that are held until they are written together.

ghost use Rattle.std.specs.Prelude.{◌≡◌, ◌<◌, ◌≤◌, ◌++◌, ◌+◌, ◌^◌, [], length, IfOk, OnOk, OnErr};
ghost use Rattle.std.specs.Prelude.{vec_capacity};
ghost use Rattle.server_spec.specs.Replies.{reply_owed, world_after};
ghost use Rattle.server_spec.specs.Owed.{record_of};
ghost use Rattle.rpc_streams.specs.RunRpc.{time_of};
ghost use Rattle.rpc_streams.specs.Batches.{IsBatch, taken_by};

use nfs_items::Time;
use rpc::records::{MAX_RECORD, last_mark, record_in_front};
use service::Service;
use std::alloc::{AllocError, Global};

/// The bytes of a mark.
const MARK: usize = 4;

/// No record is answered after replies of more bytes: more than are owed to what a pipe holds at once, if
/// its calls ask for no data.
const MOST_BYTES: usize = 122_880;

/// The most records of a batch.
pub const MOST_RECORDS: usize = 2048;

/// The time of the k-th record: k seconds, at most the greatest that a time has.
pub fn time_of_record(k: u64) -> Time
    ensures { result ≡ time_of k }
{
    let seconds = k.min(u64::from(u32::MAX)) as u32;
    Time::new(seconds, 0).unwrap()
}

/// Answers a record at a time: the record of the reply, if one is owed, is put after what is held. Where
/// memory is refused, nothing has changed.
pub fn answer_record(
    alloc: Global,
    service: &mut Service,
    replies: &mut Vec<u8>,
    time: Time,
    bytes: &[u8],
) -> Result<(), AllocError>
    ensures text { OnOk result (replies.new.items ≡ replies.old.items
        ++ record_of (reply_owed service.old.world time bytes.now)) }
    ensures world { OnOk result (service.new.world ≡ world_after service.old.world time bytes.now) }
    ensures err { OnErr result (service.new.world ≡ service.old.world) }
    ensures front { OnErr result (replies.new.items ≡ replies.old.items) }
{
    let start = replies.len();
    replies.extend_from_slice(&[0; MARK])?;
    let answered = service.answer_into(alloc, time, bytes, replies);
    if let Ok(true) = answered {
        let mark = last_mark((replies.len() - start - MARK) as u32);
        replies[start..start + MARK].copy_from_slice(&mark.to_be_bytes());
        return Ok(());
    }
    replies.truncate(start);
    match answered {
        Ok(_) => Ok(()),
        Err(error) => Err(error),
    }
}

/// Where an answered record ends in the bytes that it came from, and its reply in the replies.
#[derive(Clone, Copy, Debug)]
pub struct End {
    pub taken: usize,
    pub owed: usize,
}

/// Records that were answered from the bytes at hand, and their replies.
#[derive(Drop)]
pub struct Batch {
    pub replies: Vec<u8>,
    pub ends: Vec<End>,
}

impl Batch {
    /// Holds nothing yet.
    pub fn new(alloc: Global) -> Result<Batch, AllocError>
        ensures { IfOk result (λ batch. MOST_RECORDS ≤ vec_capacity batch.ends) }
    {
        Ok(Batch {
            replies: Vec::with_capacity(alloc, MOST_BYTES + MARK + MAX_RECORD)?,
            ends: Vec::with_capacity(alloc, MOST_RECORDS)?,
        })
    }

    /// Answers a record at a time, in place of what is held: its reply is held now, if one is owed. Where
    /// memory is refused, the server is as it was, and nothing is held.
    pub fn hold(
        &mut self,
        alloc: Global,
        service: &mut Service,
        time: Time,
        record: &[u8],
    ) -> Result<(), AllocError>
        ensures text { OnOk result
            (self.new.replies.items ≡ record_of (reply_owed service.old.world time record.now)) }
        ensures world { OnOk result (service.new.world ≡ world_after service.old.world time record.now) }
        ensures err { OnErr result (service.new.world ≡ service.old.world) }
        ensures none { OnErr result (self.new.replies.items ≡ []) }
        ensures room { vec_capacity self.new.ends ≡ vec_capacity self.old.ends }
    {
        self.replies.clear();
        answer_record(alloc, service, &mut self.replies, time, record)
    }

    /// Answers the records that stand in front of some bytes, as many as a batch has, after what is held. The
    /// first is the k-th. Where memory is refused, the records before are answered.
    pub fn fill(
        &mut self,
        alloc: Global,
        service: &mut Service,
        bytes: &[u8],
        k: u64,
    ) -> Result<(), AllocError>
        requires room { MOST_RECORDS ≤ vec_capacity self.old.ends }
        ensures batch { IsBatch service.old.world k service.new.world self.old.replies.items bytes.now
            self.new.replies.items self.new.ends.items }
        ensures count { k + length self.new.ends.items < 2 ^ 64 }
        ensures room { MOST_RECORDS ≤ vec_capacity self.new.ends }
    {
        self.ends.clear();
        let most = (u64::MAX - k).min(MOST_RECORDS as u64) as usize;
        let mut taken = 0;
        while self.ends.len() < most && self.replies.len() <= MOST_BYTES {
            let Some(record) = record_in_front(&bytes[taken..]) else {
                return Ok(());
            };
            let time = time_of_record(k + self.ends.len() as u64);
            answer_record(alloc, service, &mut self.replies, time, record)?;
            taken += MARK + record.len();
            let owed = self.replies.len();
            self.ends.push(End { taken, owed }).unwrap();
        }
        Ok(())
    }

    /// How many bytes the records take up to the first whose reply isn't whole in the first `written` bytes
    /// of the replies, that record included; all of them where each reply is whole.
    pub fn taken(&self, written: usize) -> usize
        ensures { result ≡ taken_by written 0 self.now.ends.items }
    {
        let mut taken = 0;
        for end in &self.ends {
            taken = end.taken;
            if written < end.owed {
                break;
            }
        }
        taken
    }
}
