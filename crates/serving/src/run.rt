//! A run of the service.

ghost use Rattle.std.specs.Prelude.{◌≡◌, All, IfOk, IfSome, IsOk, IsTrue, OnOk};
ghost use Rattle.std.specs.Io.KnownBytes.{Appends};
ghost use Rattle.std.specs.List.{flat_map};
ghost use Rattle.serving.specs.auditing.Accounts.{HasAccount};
ghost use Rattle.serving.specs.auditing.AuditOutputs.{IsShown};
ghost use Rattle.serving.specs.auditing.Lines.{report_line};
ghost use Rattle.auditing.specs.declared.trouble.Trouble.TheVariants as troubles;
ghost use Rattle.serve_options.specs.Options.{AreServeOptions};
ghost use Rattle.serving.specs.Runs.{AreAccounted, IsReported, WritesLines, listening_line};
ghost use Rattle.serving.specs.witness_calls.Closing.{IsOneRun};

use crate::checks::Checks;
use crate::connection::{ConnectionContext, EndedClient, WaitingClient};
use crate::listen::serve_all;
use crate::members::{Nodes, SERVER, make_nodes};
use crate::order::Order;
use crate::phase::Phase;
use auditing::{
    AuditContext, AuditOutput, Auditor, Closed, LineFault, LogToAudit, NodeReport, Pass,
    ReceiptFault, Shelf, Trouble, WitnessService, are_forwarded, close, final_reports, has_account,
    open_witness, put_evidence, write_reports, write_text,
};
use authenticator::Roster;
use nodes::{ClientNode, HonestServer, ServerNode};
use std::alloc::{AllocError, AllocFailed, Global};
use std::io::{self, Write};
use std::net::{OpenListener, TcpStream};
use std::sync::{Mutex, Wait};
use std::thread::Threads;
use witness_service::Note;

/// A run that came to its end: each line was written.
#[derive(Drop)]
pub struct Finished<S> {
    /// The server, with its log.
    pub server: ServerNode,
    /// The clients, with their logs, by rising numbers.
    pub clients: Vec<ClientNode>,
    /// The witness's closed journal, where it holds each answer that was given once, and no other step.
    pub closed: Result<Closed, ReceiptFault>,
    /// The witness's last answers about each node, as the lines print them: none where it was not closed.
    pub reports: Vec<NodeReport>,
    /// Whether each file was put in its place, and each connection was accepted.
    pub whole: bool,
    /// Where the files were put.
    pub shelf: S,
}

/// Why a run could not come to its end.
#[derive(Debug, Drop)]
pub enum ServeFault {
    /// Memory was refused.
    NoMemory,
    /// A line could not be written.
    Device,
    /// The port of the listener could not be told.
    Listener(io::Error),
    /// The file of the roster could not be put in its place.
    Roster(io::Error),
    /// The witness's journal doesn't show that everybody was audited. Either a node that is called trusted
    /// wasn't audited to its last signed entry, though nothing was refused, or what a log showed of others
    /// wasn't handed on: then the lines were written. Or the journal's last places don't answer for each
    /// node:
    /// then no line was written.
    Unaudited,
}

impl From<AllocError> for ServeFault {
    fn from(_error: AllocError) -> ServeFault {
        ServeFault::NoMemory
    }
}

impl<T: Drop> From<AllocFailed<T>> for ServeFault {
    fn from(_error: AllocFailed<T>) -> ServeFault {
        ServeFault::NoMemory
    }
}

impl From<LineFault> for ServeFault {
    fn from(fault: LineFault) -> ServeFault {
        match fault {
            LineFault::NoMemory => ServeFault::NoMemory,
            LineFault::Device => ServeFault::Device,
        }
    }
}

/// A run whose keys are made and whose witness is open.
#[derive(Drop)]
struct PreparedRun {
    roster: Roster,
    server: HonestServer,
    witness: WitnessAndClients,
}

/// The witness of a run, and the clients that have a pass there.
#[derive(Drop)]
struct WitnessAndClients {
    service: WitnessService,
    clients: Vec<WaitingClient>,
    /// The pass by which everybody is audited in the end.
    last: Pass,
}

/// The server, and the clients whose connections have ended.
#[derive(Drop)]
struct ServedClients {
    server: ServerNode,
    ended: Vec<EndedClient>,
}

/// The nodes and the passes of a run whose connections have ended.
#[derive(Drop)]
struct NodesAndPasses {
    server: ServerNode,
    clients: Vec<ClientNode>,
    passes: Vec<Pass>,
}

/// The nodes of a run whose witness is closed.
#[derive(Drop)]
struct AuditedRun {
    server: ServerNode,
    clients: Vec<ClientNode>,
    closed: Result<Closed, ReceiptFault>,
}

/// Serves COUNT connections, then audits the server and every client. The listener is closed once all
/// connections were accepted, or none is accepted any more. The lines go to `writer`: at the end one for each
/// node, as the last places of the closed witness's journal answer for it. Other messages go to `errors`.
/// Files are put on `shelf`: at the end the evidence of each report, if the order names a folder for it.
pub fn serve<R, T, L, O, E, S>(
    rt: &R,
    alloc: Global,
    listener: L,
    clock: &T,
    writer: &mut O,
    errors: E,
    shelf: S,
    order: &Order<'_>,
) -> Result<Finished<S>, ServeFault>
where
    R: Threads + Wait + Sync,
    T: std::time::Clock + Sync,
    L: OpenListener<Stream = TcpStream> + Drop,
    O: Write,
    E: Write + Send + Drop,
    S: Shelf + Send + Drop,
    requires { AreServeOptions order.now.options }
    ensures run { IfOk result (λ f. IfOk f.closed IsOneRun) }
    ensures reported { IfOk result (λ f. IfOk f.closed (λ c.
        IsReported c f.server f.clients.items f.reports.items)) }
    ensures lines { IfOk result (λ f. WritesLines (O.contents writer.old) f.reports.items
        (O.contents writer.new)) }
    ensures evidence { IfOk result (λ f. IsTrue f.whole → IfSome order.now.options.evidence (λ folder.
        IfOk f.closed (λ c. All (IsShown (S.files f.shelf) folder.now c.roster) f.reports.items))) }
{
    let port = port_of(&listener)?;
    let mut output = AuditOutput::new(alloc, errors, shelf, owned(alloc, order.options.evidence)?);
    let prepared = prepare(rt, alloc, order, &mut output)?;
    let prepared = when_done(prepared, announce(alloc, writer, port))?;
    let output = Mutex::new(output);
    let audited = serve_and_audit(rt, alloc, listener, clock, &output, order, prepared)?;
    conclude(
        alloc,
        writer,
        output.into_inner(),
        order.options.evidence,
        audited,
    )
}

/// Writes the lines of a run whose witness is closed, and puts the evidence in its place, where a folder is
/// named for it.
fn conclude<O: Write, E: Write + Drop, S: Shelf + Drop>(
    alloc: Global,
    writer: &mut O,
    mut output: AuditOutput<E, S>,
    folder: Option<&str>,
    audited: AuditedRun,
) -> Result<Finished<S>, ServeFault>
    ensures run { IfOk result (λ f. f.closed ≡ audited.closed) }
    ensures reported { IfOk result (λ f. IfOk f.closed (λ c.
        IsReported c f.server f.clients.items f.reports.items)) }
    ensures lines { IfOk result (λ f. Appends (O.contents writer.old) (O.contents writer.new)
        (flat_map report_line f.reports.items)) }
    ensures evidence { IfOk result (λ f. IsTrue f.whole → IfSome folder.entry (λ name.
        IfOk f.closed (λ c. All (IsShown (S.files f.shelf) name.now c.roster) f.reports.items))) }
{
    match reports_of(alloc, writer, &mut output, folder, &audited) {
        Ok(reports) => Ok(finished_of(audited, output, reports)),
        Err(fault) => Err(fault),
    }
}

/// A run that came to its end.
fn finished_of<E: Drop, S>(
    audited: AuditedRun,
    output: AuditOutput<E, S>,
    reports: Vec<NodeReport>,
) -> Finished<S>
    ensures server { result.server ≡ audited.server }
    ensures clients { result.clients ≡ audited.clients }
    ensures closed { result.closed ≡ audited.closed }
    ensures reports { result.reports ≡ reports }
    ensures whole { IsTrue result.whole → output.trouble ≡ troubles.None }
    ensures shelf { result.shelf ≡ output.shelf }
{
    let AuditedRun {
        server,
        clients,
        closed,
    } = audited;
    Finished {
        server,
        clients,
        closed,
        reports,
        whole: output.trouble() == Trouble::None,
        shelf: output.into_shelf(),
    }
}

/// The port of a listener.
fn port_of<L: OpenListener<Stream = TcpStream>>(listener: &L) -> Result<u16, ServeFault> {
    match listener.local_addr() {
        Ok(address) => Ok(address.port()),
        Err(error) => Err(ServeFault::Listener(error)),
    }
}

/// The closed witness's last answers about each node: the lines are written, the evidence is put in its place
/// if a folder is named for it, and the journal shows that everybody was audited. None where the witness
/// wasn't closed.
fn reports_of<O: Write, E: Write, S: Shelf>(
    alloc: Global,
    writer: &mut O,
    output: &mut AuditOutput<E, S>,
    folder: Option<&str>,
    audited: &AuditedRun,
) -> Result<Vec<NodeReport>, ServeFault>
    ensures reported { IfOk result (λ rs. IfOk audited.now.closed (λ c.
        IsReported c audited.now.server audited.now.clients.items rs.items)) }
    ensures lines { IfOk result (λ rs. Appends (O.contents writer.old) (O.contents writer.new)
        (flat_map report_line rs.items)) }
    ensures evidence { IfOk result (λ rs. output.new.trouble ≡ troubles.None → IfSome folder.entry (λ name.
        IfOk audited.now.closed (λ c. All (IsShown (S.files output.new.shelf) name.now c.roster) rs.items))) }
{
    match &audited.closed {
        Ok(closed) => closed_reports(alloc, writer, output, folder, closed, audited),
        Err(_) => Ok(Vec::new(alloc)),
    }
}

/// The closed witness's last answers about each node.
fn closed_reports<O: Write, E: Write, S: Shelf>(
    alloc: Global,
    writer: &mut O,
    output: &mut AuditOutput<E, S>,
    folder: Option<&str>,
    closed: &Closed,
    audited: &AuditedRun,
) -> Result<Vec<NodeReport>, ServeFault>
    ensures reported { IfOk result (λ rs.
        IsReported closed.now audited.now.server audited.now.clients.items rs.items) }
    ensures lines { IfOk result (λ rs. Appends (O.contents writer.old) (O.contents writer.new)
        (flat_map report_line rs.items)) }
    ensures evidence { IfOk result (λ rs. output.new.trouble ≡ troubles.None → IfSome folder.entry (λ name.
        All (IsShown (S.files output.new.shelf) name.now closed.now.roster) rs.items)) }
{
    let Some(reports) = final_reports(alloc, &closed.journal)? else {
        return Err(ServeFault::Unaudited);
    };
    write_reports(alloc, writer, &reports)?;
    put_evidence_in(output, folder, &closed.roster, &reports);
    if output.trouble() == Trouble::NoMemory {
        return Err(ServeFault::NoMemory);
    }
    if is_reported(closed, &audited.server, &audited.clients, &reports) {
        Ok(reports)
    } else {
        Err(ServeFault::Unaudited)
    }
}

/// Puts the evidence of each report in its place, where a folder is named for it.
fn put_evidence_in<E: Write, S: Shelf>(
    output: &mut AuditOutput<E, S>,
    folder: Option<&str>,
    roster: &Roster,
    reports: &[NodeReport],
)
    ensures { output.new.trouble ≡ troubles.None → IfSome folder.entry (λ name.
        All (IsShown (S.files output.new.shelf) name.now roster.now) reports.now) }
{
    if let Some(folder) = folder {
        put_evidence(output, folder, roster, reports);
    }
}

/// Whether a journal shows that everybody was audited, and that what their logs showed was handed on.
fn is_reported(
    closed: &Closed,
    server: &ServerNode,
    clients: &[ClientNode],
    reports: &[NodeReport],
) -> bool
    ensures { IsTrue result → AreAccounted closed.now server.now clients.now reports.now }
{
    let places = closed.journal.places();
    are_forwarded(places)
        && has_account(reports, places, server.node())
        && have_accounts(reports, places, clients)
}

/// Whether the logs of all clients are accounted for.
fn have_accounts(reports: &[NodeReport], places: &[Note], clients: &[ClientNode]) -> bool
    ensures { IsTrue result → All (HasAccount reports.now places.now) clients.now }
{
    for client in clients {
        if !has_account(reports, places, client.node()) {
            return false;
        }
    }
    true
}

/// A copy of a name, if one is given.
fn owned(alloc: Global, name: Option<&str>) -> Result<Option<String>, AllocError> {
    match name {
        Some(name) => Ok(Some(String::from_str(alloc, name)?)),
        None => Ok(None),
    }
}

/// Makes all keys, puts the roster in its place if it is to be, and opens the witness.
fn prepare<R: Threads + Sync, E: Write, S: Shelf>(
    rt: &R,
    alloc: Global,
    order: &Order<'_>,
    output: &mut AuditOutput<E, S>,
) -> Result<PreparedRun, ServeFault>
    requires { AreServeOptions order.now.options }
{
    let nodes = make_nodes(rt, alloc, order, output)?;
    let put = put_roster(alloc, output, order, &nodes.roster);
    prepared_run(alloc, when_done(nodes, put)?)
}

/// A value, if what had to be done beside it was done. Its type is a parameter, so that the proof knows
/// nothing of what it owns.
fn when_done<T: Drop>(value: T, done: Result<(), ServeFault>) -> Result<T, ServeFault>
    ensures value { IfOk result (λ v. v ≡ value) }
    ensures done { IfOk result (λ _. IsOk done) }
{
    match done {
        Ok(()) => Ok(value),
        Err(fault) => Err(fault),
    }
}

/// A run whose nodes are made: its witness is opened.
fn prepared_run(alloc: Global, nodes: Nodes) -> Result<PreparedRun, ServeFault> {
    let Nodes {
        roster,
        server,
        clients,
    } = nodes;
    let witness = open_with_passes(alloc, &roster, clients);
    match with_made(server, witness) {
        Ok((server, witness)) => Ok(PreparedRun {
            roster,
            server,
            witness,
        }),
        Err(AllocError) => Err(ServeFault::NoMemory),
    }
}

/// A value with what was made beside it, if it could be made. Their types are parameters, as in `when_done`.
fn with_made<T: Drop, U: Drop, E: Drop>(value: T, made: Result<U, E>) -> Result<(T, U), E> {
    match made {
        Ok(other) => Ok((value, other)),
        Err(error) => Err(error),
    }
}

/// Opens the witness, and gives each client a pass there.
fn open_with_passes(
    alloc: Global,
    roster: &Roster,
    clients: Vec<ClientNode>,
) -> Result<WitnessAndClients, AllocError> {
    let (service, mut passes) = open_witness(alloc, roster, clients.len() + 1)?;
    let Some(last) = passes.pop() else {
        return Err(AllocError);
    };
    let clients = waiting_clients(alloc, clients, passes)?;
    Ok(WitnessAndClients {
        service,
        clients,
        last,
    })
}

/// Writes that the run listens.
fn announce<O: Write>(alloc: Global, writer: &mut O, port: u16) -> Result<(), ServeFault>
    ensures { OnOk result (Appends (O.contents writer.old) (O.contents writer.new) (listening_line port)) }
{
    let line = format!(in alloc; "listening {port}\n")?;
    write_text(writer, &line)?;
    Ok(())
}

/// Puts the file of a roster in its place, if one is named.
fn put_roster<E: Write, S: Shelf>(
    alloc: Global,
    output: &mut AuditOutput<E, S>,
    order: &Order<'_>,
    roster: &Roster,
) -> Result<(), ServeFault> {
    let Some(name) = order.options.roster_out else {
        return Ok(());
    };
    let mut text = Vec::new(alloc);
    roster.write(&mut text)?;
    match output.put(name, &text) {
        Ok(()) => Ok(()),
        Err(error) => Err(ServeFault::Roster(error)),
    }
}

/// Each client with a pass.
fn waiting_clients(
    alloc: Global,
    clients: Vec<ClientNode>,
    passes: Vec<Pass>,
) -> Result<Vec<WaitingClient>, AllocError> {
    clients
        .into_iter()
        .zip(passes)
        .map(|(client, pass)| WaitingClient { client, pass })
        .collect(alloc)
}

/// Serves the connections, audits everybody, asks the witness about each node, and closes it.
fn serve_and_audit<R, T, L, E, S>(
    rt: &R,
    alloc: Global,
    listener: L,
    clock: &T,
    output: &Mutex<AuditOutput<E, S>>,
    order: &Order<'_>,
    prepared: PreparedRun,
) -> Result<AuditedRun, ServeFault>
where
    R: Threads + Wait + Sync,
    T: std::time::Clock + Sync,
    L: OpenListener<Stream = TcpStream> + Drop,
    E: Write + Send,
    S: Shelf + Send,
    ensures { IfOk result (λ p. IfOk p.closed IsOneRun) }
{
    let PreparedRun {
        roster,
        server,
        witness,
    } = prepared;
    let WitnessAndClients {
        service,
        clients,
        last,
    } = witness;
    let audit = AuditContext {
        rt,
        alloc,
        service: &service,
        roster: &roster,
        output,
        progress: order.options.progress,
    };
    let served = serve_clients(audit, listener, clock, order, server, clients)?;
    let parts = finish(audit, last, served)?;
    let closed = close(service, parts.passes);
    Ok(AuditedRun {
        server: parts.server,
        clients: parts.clients,
        closed,
    })
}

/// Serves the connections.
fn serve_clients<R, T, L, E, S>(
    audit: AuditContext<'_, R, E, S>,
    listener: L,
    clock: &T,
    order: &Order<'_>,
    server: HonestServer,
    clients: Vec<WaitingClient>,
) -> Result<ServedClients, AllocError>
where
    R: Threads + Wait + Sync,
    T: std::time::Clock + Sync,
    L: OpenListener<Stream = TcpStream> + Drop,
    E: Write + Send,
    S: Shelf + Send,
{
    let server = Mutex::new(server);
    let phase = Mutex::new(Phase::Serving);
    let checks = checks_of(audit.alloc, order)?.map(Mutex::new);
    let context = ConnectionContext {
        audit,
        clock,
        server: &server,
        checks: checks.as_ref(),
        phase: &phase,
        idle: order.options.idle,
        control: order.control,
    };
    let ended = serve_all(context, listener, clients)?;
    Ok(ServedClients {
        server: server.into_inner().into_server(),
        ended,
    })
}

/// The CHECKs that the server logs, if the order has some.
fn checks_of(alloc: Global, order: &Order<'_>) -> Result<Option<Checks>, AllocError> {
    let Some(every) = order.options.check_every else {
        return Ok(None);
    };
    let folder = owned(alloc, order.options.base_out)?;
    Ok(Some(Checks::new(every, folder)))
}

/// Audits everybody by a pass, and asks the witness about each node.
fn finish<R, E, S>(
    audit: AuditContext<'_, R, E, S>,
    last: Pass,
    served: ServedClients,
) -> Result<NodesAndPasses, ServeFault>
where
    R: Threads + Wait + Sync,
    E: Write,
    S: Shelf,
{
    let asked = audit_by(audit, last, &served);
    match with_made(served, asked) {
        Ok((served, last)) => nodes_and_passes(audit.alloc, served, last),
        Err(AllocError) => Err(ServeFault::NoMemory),
    }
}

/// Audits everybody by a pass, which comes back, and asks the witness about each node.
fn audit_by<R, E, S>(
    audit: AuditContext<'_, R, E, S>,
    last: Pass,
    served: &ServedClients,
) -> Result<Pass, AllocError>
where
    R: Threads + Wait + Sync,
    E: Write,
    S: Shelf,
{
    let mut auditor = Auditor::new(audit, last);
    match audit_and_ask(&mut auditor, served) {
        Ok(()) => Ok(auditor.into_audits().pass),
        Err(AllocError) => Err(AllocError),
    }
}

/// Audits everybody to the last signed entry, and asks the witness about each node.
fn audit_and_ask<R, E, S>(
    auditor: &mut Auditor<'_, R, E, S>,
    served: &ServedClients,
) -> Result<(), AllocError>
where
    R: Threads + Wait + Sync,
    E: Write,
    S: Shelf,
{
    let logs = served.logs_to_audit(auditor.alloc())?;
    auditor.finish(&logs);
    for one in &served.ended {
        auditor.learn_kept(&one.kept);
    }
    auditor.ask_all(&logs)
}

impl ServedClients {
    /// The log of each node, and how far it was filed, the server first.
    fn logs_to_audit(&self, alloc: Global) -> Result<Vec<LogToAudit<'_>>, AllocError> {
        let mut logs = Vec::with_capacity(alloc, self.ended.len() + 1)?;
        logs.push(LogToAudit {
            number: SERVER,
            log: self.server.node(),
            filed: 0,
        })?;
        for one in &self.ended {
            logs.push(LogToAudit {
                number: one.client.number(),
                log: one.client.node(),
                filed: one.filed,
            })?;
        }
        Ok(logs)
    }
}

/// The nodes that were served, and all passes, with one more.
fn nodes_and_passes(
    alloc: Global,
    served: ServedClients,
    last: Pass,
) -> Result<NodesAndPasses, ServeFault> {
    let ServedClients { server, ended } = served;
    match with_made(server, clients_and_passes(alloc, ended, last)) {
        Ok((server, (clients, passes))) => Ok(NodesAndPasses {
            server,
            clients,
            passes,
        }),
        Err(AllocError) => Err(ServeFault::NoMemory),
    }
}

/// The clients, and their passes with one more.
fn clients_and_passes(
    alloc: Global,
    ended: Vec<EndedClient>,
    last: Pass,
) -> Result<(Vec<ClientNode>, Vec<Pass>), AllocError> {
    let (clients, mut passes): (Vec<ClientNode>, Vec<Pass>) = ended
        .into_iter()
        .map(|one| (one.client, one.pass))
        .unzip(alloc)?;
    passes.push(last)?;
    Ok((clients, passes))
}
