//! `nfsacc serve`.

ghost use Rattle.std.specs.Prelude.{◌≡◌, ◌≢◌, ◌⊎◌, true, false, IsOk, IsErr, IfOk, IfErr};
ghost use Rattle.std.specs.declared.io.Error.{Error};

use command_line::{ServeOrder, ServeRefusal, ServeRequest, serve_order};
use party_files::{Control, FileShelf, HeldSecret, report_control, report_secret, stand_ins};
use program_output::{
    COMMAND_LINE, DEVICE, INPUT_FAULT, Remembering, report_file, report_no_memory, report_output,
};
use serving::{Finished, Masters, Order, ServeFault, Shelf, serve};
use std::fs::File;
use std::io;
use std::io::Write;
use std::net::{Net, SocketAddr, TcpListener, TcpStream};
use std::os::unix::net::UnixListener;
use std::random::RandomSource;
use std::rt::{Clock, Files};
use std::sync::Wait;
use std::thread::Threads;

/// What is said where the witness's journal isn't what it answered.
const NOT_IN_JOURNAL: &str = "nfsacc: what the witness answered does not stand in its journal";

/// What is opened before the first key of a run is made.
#[derive(Drop)]
struct Opened {
    listener: TcpListener,
    /// The secret that the keys are made of, which no other process uses until the run is over, if one is
    /// named.
    secret: Option<HeldSecret>,
    masters: Masters,
    /// The control socket, by which the run can be told to stop, if there is one.
    control: Option<Control>,
    /// /dev/null in the place of standard input, output and error where they are closed, so that no socket
    /// becomes descriptor 0 to 2 and no client gets messages about others.
    stand_ins: [Option<File>; 3],
}

/// Serves over TCP until the last connection that is asked for has ended, and gives the status for it. What goes to
/// standard error while threads run is written to `errors`, and evidence and bases are put on the shelf.
pub fn run_service<R, E, S>(rt: &R, request: &ServeRequest<'_>, errors: E, shelf: S) -> u8
where
    R: Files<File = File> + Print + Eprint + AllocGlobal + RandomSource + Clock,
    R: Net<Listener = TcpListener, Stream = TcpStream>,
    R: Threads + Wait + Sync,
    E: Write + Send + Drop,
    S: Shelf + Send + Drop,
{
    let order = match serve_order(request) {
        Ok(order) => order,
        Err(refusal) => return report_order(rt, refusal),
    };
    let opened = match open(rt, &order) {
        Ok(opened) => opened,
        Err(status) => return status,
    };
    let Opened {
        listener,
        secret: _secret,
        masters,
        control,
        stand_ins: _stand_ins,
    } = opened;
    let socket = control.as_ref().map(|control| &control.listener);
    let asked = order_of(&order, masters, socket);
    let mut lines = Remembering::new(io::writer(rt));
    let served = serve(
        rt,
        rt.alloc(),
        listener,
        rt,
        &mut lines,
        errors,
        shelf,
        &asked,
    );
    if let Some(control) = control {
        control.close(rt);
    }
    report_served(rt, &order, served, lines.last())
}

/// Says on standard error what can't be served, and gives the status for it.
fn report_order(rt: &impl Eprint, refusal: ServeRefusal) -> u8 {
    let _ = eprintln!(rt; "nfsacc: {refusal}");
    COMMAND_LINE
}

/// Opens the port and the control socket, reads the secret bytes if a file of them is named, and tries the
/// folders for evidence and for bases; then it notes beside the secret that a run is begun. Gives the status
/// of the program where one of them fails.
fn open<R>(rt: &R, order: &ServeOrder<'_>) -> Result<Opened, u8>
where
    R: Files<File = File> + Eprint + AllocGlobal + RandomSource,
    R: Net<Listener = TcpListener, Stream = TcpStream>,
{
    let stand_ins = stand_ins(rt);
    let mut secret = open_secret(rt, order)?;
    try_named(rt, order.options.evidence)?;
    try_named(rt, order.options.base_out)?;
    let address = SocketAddr::new(order.address, order.port);
    let listener = match TcpListener::bind(rt, address) {
        Ok(listener) => listener,
        Err(error) => {
            let _ = eprintln!(rt; "nfsacc: {address}: {error}");
            return Err(DEVICE);
        }
    };
    let control = open_control(rt, order)?;
    let masters = begin(rt, order, &mut secret)?;
    Ok(Opened {
        listener,
        secret,
        masters,
        control,
        stand_ins,
    })
}

/// Opens the file of secret bytes, if one is named, or says why it can't be used and gives the status for it.
fn open_secret<R>(rt: &R, order: &ServeOrder<'_>) -> Result<Option<HeldSecret>, u8>
where
    R: Files<File = File> + Eprint + AllocGlobal,
{
    let Some(name) = order.master else {
        return Ok(None);
    };
    match HeldSecret::open(rt, name) {
        Ok(secret) => Ok(Some(secret)),
        Err(fault) => Err(report_secret(rt, name, &fault)),
    }
}

/// What the keys of the run are made of: it is noted on the disk first that the run has begun.
fn begin<R>(rt: &R, order: &ServeOrder<'_>, secret: &mut Option<HeldSecret>) -> Result<Masters, u8>
where
    R: Files + Eprint + AllocGlobal + RandomSource,
{
    let Some(secret) = secret else {
        return Ok(Masters::Known);
    };
    match secret.begin_run(rt) {
        Ok(masters) => Ok(masters),
        Err(fault) => Err(report_secret(rt, order.master.unwrap_or(""), &fault)),
    }
}

/// Makes the control socket where a folder is named for it, or says why it can't be made and gives the status
/// for that.
fn open_control<R>(rt: &R, order: &ServeOrder<'_>) -> Result<Option<Control>, u8>
where
    R: Files + Net + Eprint + AllocGlobal,
{
    let Some(folder) = order.control else {
        return Ok(None);
    };
    match Control::open(rt, rt.alloc(), folder) {
        Ok(control) => Ok(Some(control)),
        Err(fault) => Err(report_control(rt, folder, &fault)),
    }
}

/// The order for a run: its options, and what was opened for it.
fn order_of<'a>(
    order: &ServeOrder<'a>,
    masters: Masters,
    control: Option<&'a UnixListener>,
) -> Order<'a>
    ensures options { result.options ≡ order.now.options }
    ensures masters { result.masters ≡ masters }
    ensures control { result.control ≡ control.entry }
{
    Order {
        options: order.options,
        masters,
        control,
    }
}

/// The status of a run, whether it came to its end or not; what is wrong is said on standard error. `last` is
/// the last error of standard output, if it answered one.
fn report_served<S: Drop>(
    rt: &impl Eprint,
    order: &ServeOrder<'_>,
    served: Result<Finished<S>, ServeFault>,
    last: Option<io::Error>,
) -> u8
    ensures open { IfOk served (λ f. IsErr f.closed → result ≡ 1) }
    ensures part { IfOk served (λ f. IsOk f.closed → f.whole ≡ false → result ≡ 4) }
    ensures done { IfOk served (λ f. IsOk f.closed → f.whole ≡ true → result ≡ 0) }
    ensures unaudited { IfErr served (λ e. e ≡ ServeFault.Unaudited → result ≡ 1) }
    ensures memory { IfErr served (λ e. e ≡ ServeFault.NoMemory → result ≡ 3) }
    ensures device { IfErr served (λ e. e ≢ ServeFault.Unaudited → (result ≡ 3) ⊎ (result ≡ 4)) }
    ensures listener { IfErr served (λ e. (error : Error) → e ≡ ServeFault.Listener error → result ≡ 4) }
{
    match &served {
        Ok(finished) => {
            let status = status_of(finished);
            if status == INPUT_FAULT {
                let _ = rt.eprintln(NOT_IN_JOURNAL);
            }
            status
        }
        Err(fault) => report_fault(rt, order, fault, last),
    }
}

/// That a folder takes files, if one is named, or the status for it.
fn try_named<R>(rt: &R, folder: Option<&str>) -> Result<(), u8>
where
    R: Files + Eprint + AllocGlobal + RandomSource,
{
    let Some(name) = folder else {
        return Ok(());
    };
    match try_folder(rt, name) {
        Ok(()) => Ok(()),
        Err(error) => Err(report_file(rt, name, &error)),
    }
}

/// That a folder is there and takes files: before anybody is served, since files may come at any time.
fn try_folder<R: Files + AllocGlobal + RandomSource>(rt: &R, name: &str) -> io::Result<()> {
    FileShelf::new(rt, rt.alloc()).try_folder(name)
}

/// The status of a run that came to its end: a journal that isn't what the witness answered is the first
/// fault.
fn status_of<S>(finished: &Finished<S>) -> u8
    ensures open { IsErr finished.now.closed → result ≡ 1 }
    ensures part { IsOk finished.now.closed → finished.now.whole ≡ false → result ≡ 4 }
    ensures done { IsOk finished.now.closed → finished.now.whole ≡ true → result ≡ 0 }
{
    if finished.closed.is_err() {
        return INPUT_FAULT;
    }
    if finished.whole { 0 } else { DEVICE }
}

/// Says on standard error why a run came to no end.
fn report_fault(
    rt: &impl Eprint,
    order: &ServeOrder<'_>,
    fault: &ServeFault,
    last: Option<io::Error>,
) -> u8
    ensures unaudited { fault.now ≡ ServeFault.Unaudited → result ≡ 1 }
    ensures memory { fault.now ≡ ServeFault.NoMemory → result ≡ 3 }
    ensures device { fault.now ≢ ServeFault.Unaudited → (result ≡ 3) ⊎ (result ≡ 4) }
    ensures listener { (error : Error) → fault.now ≡ ServeFault.Listener error → result ≡ 4 }
{
    match fault {
        ServeFault::NoMemory => report_no_memory(rt),
        ServeFault::Device => report_output(rt, last),
        ServeFault::Listener(error) => {
            let _ = eprintln!(rt; "nfsacc: {error}");
            DEVICE
        }
        ServeFault::Roster(error) => report_file(rt, order.options.roster_out.unwrap_or(""), error),
        ServeFault::Unaudited => {
            let _ = rt.eprintln(
                "nfsacc: the witness's journal does not show that everybody was audited",
            );
            INPUT_FAULT
        }
    }
}
