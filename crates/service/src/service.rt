//! A server: its files, its mounts, its clock, and what it replies.

ghost use Rattle.std.specs.Prelude.{◌≡◌, ◌≤◌, ◌++◌, [], List, ℕ, length, None, IfOk};
ghost use Rattle.std.specs.Prelude.{IfSome, OnOk, OnErr, IsOk};
ghost use Rattle.std.specs.Io.{StartsWith};
ghost use Rattle.std.specs.Option.{option_map};
ghost use Rattle.rpc.specs.declared.records.record.TheConstants.{MAX_RECORD};
ghost use Rattle.xdr.specs.Writing.{Appends};
ghost use Rattle.rpc.specs.Call.{Message};
ghost use Rattle.rpc.specs.CallValues.{IsCallOf};
ghost use Rattle.nfs_procs.specs.nfs_items.CallerOf.{caller_of};
ghost use Rattle.fs_spec.specs.Maxima.{max_files};
ghost use Rattle.server_spec.specs.IsWorld.{IsWorld};
ghost use Rattle.server_spec.specs.World.{opening_world, world_of};
ghost use Rattle.server_spec.specs.Replies.{bare_reply, call_results, call_reply, reply_to, reply_owed};
ghost use Rattle.server_spec.specs.Replies.{world_after};
ghost use Rattle.server_spec.specs.Owed.{IsReplied};
ghost use Rattle.service.specs.Views.{served_of, view_of_call, HasShortName, IsBounded};

use crate::checks::{ServedArgs, check_call};
use mount::{MountTable, Tree, mount_call};
use nfs_procs::{Time, Who, nfs_call};
use rpc::{Call, CallBody, RPC_VERSION, Reply, ReplyBody, read_call, write_reply, write_success};
use std::alloc::{AllocError, Global};
use std::marker::Model;

/// The room that a reply begins with, in bytes: as much as one with attributes takes, and so as every reply
/// to a call that changes files or mounts. A longer one grows.
const REPLY_ROOM: usize = 128;

/// A server's files and mounts, and its last clock reading.
#[derive(Drop)]
pub struct Service {
    tree: Tree,
    clock: Time,
    mounts: MountTable,
}

impl Model for Service {
    ghost use Rattle.service.specs.KeptWorld.{KeptWorld, kept_world_code};

    ghost Value = { KeptWorld };

    ghost coded = { kept_world_code };

    ghost view = { λ s. record {
      world = record { files = s.tree.files; clock = s.clock; mounts = s.mounts };
      missing = s.tree.missing;
    } };
}

impl Service {
    /// The server as it begins, under its number.
    pub fn opening(alloc: Global, node: u32) -> Result<Service, AllocError>
        ensures { IfOk result (λ service. service.world ≡ opening_world node) }
    {
        Ok(Service {
            tree: Tree::opening(alloc, node)?,
            clock: Time::epoch(),
            mounts: MountTable::new(alloc),
        })
    }

    /// The server of a tree, a clock's last reading and mounts.
    pub fn from_parts(tree: Tree, clock: Time, mounts: MountTable) -> Service
        ensures world { result.world ≡ world_of tree.files clock mounts }
        ensures missing { result.missing ≡ tree.missing }
    {
        Service {
            tree,
            clock,
            mounts,
        }
    }

    /// The server's files.
    pub fn tree(&self) -> &Tree
        ensures files { result.now.files ≡ self.now.world.files }
        ensures missing { result.now.missing ≡ self.now.missing }
    {
        &self.tree
    }

    /// Computes the digests of files' texts that are missing, and gives how many they were; the world stays.
    /// Where memory is refused, some more may be kept.
    pub fn renew_digests(&mut self, alloc: Global) -> Result<u32, AllocError>
        ensures same { self.new.world ≡ self.old.world }
        ensures count { IfOk result (λ count. count ≡ length self.old.missing) }
        ensures few { IfOk result (λ count. count ≤ max_files) }
        ensures whole { OnOk result (self.new.missing ≡ []) }
    {
        self.tree.renew_digests(alloc)
    }

    /// The last clock reading.
    pub fn clock(&self) -> Time
        ensures { result ≡ self.now.world.clock }
    {
        self.clock
    }

    /// What is mounted.
    pub fn mounts(&self) -> &MountTable
        ensures { result.now ≡ self.now.world.mounts }
    {
        &self.mounts
    }

    /// Its world is one that a server can have, as each call keeps it: does nothing, and tells a caller's
    /// proof.
    pub fn is_a_world(&self)
        ensures { IsWorld self.now.world.files.fsid self.now.world }
    {
        self.tree.files_are_a_tree();
        self.mounts.are_mounts();
        let _seconds = self.clock.seconds();
        let _microseconds = self.clock.microseconds();
    }

    /// The reply that is owed to a record at a time, if one is (RFC 5531, section 9); it has at most
    /// `MAX_RECORD` bytes. The time used is the later of that time and the last one used; it becomes the last
    /// one also where there is no reply. Where memory is refused, the server is as it was; that is never so
    /// where no reply is owed.
    #[tactic(auto, unfolding(server_spec::specs::Replies::reply_owed, server_spec::specs::Replies::world_after))]
    pub fn answer(
        &mut self,
        alloc: Global,
        time: Time,
        bytes: &[u8],
    ) -> Result<Option<Vec<u8>>, AllocError>
        ensures reply { IfOk result (λ r. option_map (λ v. v.items) r
            ≡ reply_owed self.old.world time bytes.now) }
        ensures world { OnOk result (self.new.world ≡ world_after self.old.world time bytes.now) }
        ensures size { IfOk result (λ r. IfSome r (λ v. length v.items ≤ MAX_RECORD)) }
        ensures err { OnErr result (self.new.world ≡ self.old.world) }

        // Where no reply is owed, no memory is taken.
        ensures silence { reply_owed self.old.world time bytes.now ≡ None → IsOk result }
    {
        let mut out = Vec::new(alloc);
        if self.answer_into(alloc, time, bytes, &mut out)? {
            Ok(Some(out))
        } else {
            Ok(None)
        }
    }

    /// Appends the reply that is owed to a record at a time, and says whether one is; else as `answer`. Where
    /// memory is refused, what was there stays in front. With room for `MAX_RECORD` bytes none is taken for
    /// the reply.
    #[tactic(auto, unfolding(server_spec::specs::Replies::reply_owed, server_spec::specs::Replies::world_after))]
    pub fn answer_into(
        &mut self,
        alloc: Global,
        time: Time,
        bytes: &[u8],
        out: &mut Vec<u8>,
    ) -> Result<bool, AllocError>
        ensures reply { IfOk result (λ is_owed.
            IsReplied is_owed (reply_owed self.old.world time bytes.now) out.old.items out.new.items) }
        ensures world { OnOk result (self.new.world ≡ world_after self.old.world time bytes.now) }
        ensures size { OnOk result (IfSome (reply_owed self.old.world time bytes.now)
            (λ text. length text ≤ MAX_RECORD)) }
        ensures err { OnErr result (self.new.world ≡ self.old.world) }
        ensures front { OnErr result (StartsWith out.new.items out.old.items) }
        ensures silence { reply_owed self.old.world time bytes.now ≡ None → IsOk result }
    {
        self.tree.files_are_a_tree();
        self.mounts.are_mounts();
        let now = time.later(self.clock);
        let is_owed = match read_call(bytes) {
            Ok(call) => {
                reply_to(alloc, out, &mut self.tree, &mut self.mounts, now, call)?;
                true
            }
            Err(_) => false,
        };
        self.clock = now;
        Ok(is_owed)
    }
}

/// Appends a reply with nothing after it.
fn add_bare_reply(out: &mut Vec<u8>, xid: u32, body: ReplyBody) -> Result<(), AllocError>
    ensures { Appends (bare_reply xid body) out.old.items result out.new.items }
{
    write_reply(&Reply { xid, body }, out)
}

/// Does a call of a program that is served, and appends its results.
fn add_results(
    alloc: Global,
    out: &mut Vec<u8>,
    tree: &mut Tree,
    mounts: &mut MountTable,
    now: Time,
    who: &Who,
    args: &ServedArgs,
) -> Result<(), AllocError>
    requires bounds { IsBounded args.now }
    requires name { HasShortName who.now }
    ensures text { OnOk result (out.new.items ≡ out.old.items
        ++ (call_results (world_of tree.old.files now mounts.old) (caller_of who.now)
        (served_of args.now)).0) }
    ensures world { OnOk result (world_of tree.new.files now mounts.new
        ≡ (call_results (world_of tree.old.files now mounts.old) (caller_of who.now)
        (served_of args.now)).1) }
    ensures err { OnErr result (world_of tree.new.files now mounts.new
        ≡ world_of tree.old.files now mounts.old) }
    ensures same { OnErr result (out.new.items ≡ out.old.items) }
{
    match args {
        ServedArgs::Nfs(args) => nfs_call(tree, alloc, who, now, args, out),
        ServedArgs::Mount(args) => mount_call(mounts, tree, alloc, who, args, out),
    }
}

/// The reply to a call of RPC's version 2.
fn answer_call(
    alloc: Global,
    out: &mut Vec<u8>,
    tree: &mut Tree,
    mounts: &mut MountTable,
    now: Time,
    xid: u32,
    who: &Who,
    checked: &Result<ServedArgs, ReplyBody>,
) -> Result<(), AllocError>
    requires bounds { IfOk checked.now IsBounded }
    requires name { OnOk checked.now (HasShortName who.now) }
    ensures text { OnOk result (out.new.items ≡ out.old.items
        ++ (call_reply (world_of tree.old.files now mounts.old) xid (view_of_call who.now checked.now)).0) }
    ensures world { OnOk result (world_of tree.new.files now mounts.new
        ≡ (call_reply (world_of tree.old.files now mounts.old) xid (view_of_call who.now checked.now)).1) }
    ensures err { OnErr result (world_of tree.new.files now mounts.new
        ≡ world_of tree.old.files now mounts.old) }
    ensures front { OnErr result (StartsWith out.new.items out.old.items) }
{
    match checked {
        Ok(args) => {
            write_success(xid, out)?;
            add_results(alloc, out, tree, mounts, now, who, args)
        }
        Err(body) => add_bare_reply(out, xid, *body),
    }
}

/// Appends the reply to a call.
fn reply_to(
    alloc: Global,
    out: &mut Vec<u8>,
    tree: &mut Tree,
    mounts: &mut MountTable,
    now: Time,
    call: Call,
) -> Result<(), AllocError>
    ensures text { OnOk result ((m : Message) (rest : List ℕ) → IsCallOf call.entry m rest →
        out.new.items ≡ out.old.items ++ (reply_to (world_of tree.old.files now mounts.old) m rest).0) }
    ensures world { OnOk result ((m : Message) (rest : List ℕ) → IsCallOf call.entry m rest →
        world_of tree.new.files now mounts.new
        ≡ (reply_to (world_of tree.old.files now mounts.old) m rest).1) }
    ensures err { OnErr result (world_of tree.new.files now mounts.new
        ≡ world_of tree.old.files now mounts.old) }
    ensures front { OnErr result (StartsWith out.new.items out.old.items) }
{
    out.reserve(REPLY_ROOM)?;
    match call.body {
        CallBody::OtherVersion => add_bare_reply(
            out,
            call.xid,
            ReplyBody::RpcMismatch {
                low: RPC_VERSION,
                high: RPC_VERSION,
            },
        ),
        CallBody::Version2(header, arguments) => {
            let mut who = Who::nobody();
            let checked = check_call(&header, arguments, &mut who);
            answer_call(alloc, out, tree, mounts, now, call.xid, &who, &checked)
        }
    }
}
