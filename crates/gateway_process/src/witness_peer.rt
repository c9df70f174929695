//! A witness that a gateway reports to.

use crate::context::{Context, Shared};
use crate::desk::Assured;
use crate::news::{
    News, Progress, Shown, ack_packet, news_since, receipt_packet, replies_after, segment_packet,
};
use crate::status::progress_line;
use crate::trouble::Trouble;
use crate::witness_caller::WitnessCaller;
use assurance::{AssuredTo, Exchanges, Keeper, Learned};
use authenticator::Authenticator;
use envelopes::Envelope;
use peer_calls::{Numbers, WantedMessage};
use remote_sharing::{AcceptFault, SharedClient};
use std::alloc::Global;
use std::io;
use std::io::Write;
use std::net::{Net, TcpListener, TcpStream};
use std::sync::{MutexGuard, Wait};
use std::time::Duration;

/// How many times news is handed to a witness in one report.
const MOST_ROUNDS: u32 = 16;

/// How many milliseconds pass between two looks whether the client has no call in flight, and how many looks there are.
const LOOK: u64 = 2;

const LOOKS: u32 = 500;

/// A witness that a gateway reports to. Its connection is kept between two reports.
#[derive(Drop)]
pub(crate) struct WitnessPeer {
    /// Where it listens, as HOST:PORT.
    address: String,
    connection: Option<Connection>,
    /// How many of the client's unanswered calls were told. They stay told.
    unanswered: usize,
    /// Which replies it answers for, as it was said last, if it was.
    said: Option<AssuredTo>,
    /// Whether the last report to it has failed.
    pub(crate) has_failed: bool,
}

/// A connection to a witness, and how far it was told over it. A witness that was begun anew has taken nothing, and by its
/// connection it can't be told from one that has: so each connection begins with nothing.
#[derive(Drop)]
struct Connection {
    /// What passes over it.
    exchanges: Exchanges<WitnessCaller>,
    progress: Progress,
    /// After how many entries of the client's log replies weren't counted yet that were handed out.
    counted: usize,
    /// Whether it was said that something isn't kept.
    is_unkept_said: bool,
}

impl Connection {
    /// One over which nothing was told. So many calls were told before.
    fn new(exchanges: Exchanges<WitnessCaller>, unanswered: usize) -> Connection {
        Connection {
            exchanges,
            progress: Progress {
                entries: 0,
                own: 0,
                unanswered,
            },
            counted: 0,
            is_unkept_said: false,
        }
    }

    /// Hands it packets, one after the other.
    fn hand_all(&mut self, packets: &[Vec<u8>]) -> Result<(), Trouble> {
        for packet in packets {
            let _taken = self.exchanges.hand(packet)?;
        }
        Ok(())
    }

    /// Counts the replies that were handed out since they were counted last.
    fn count_replies<R, T, W, E>(&mut self, shared: Shared<'_, R, T, W, E>) -> Result<(), Trouble>
    where
        R: Wait,
        T: std::time::Clock,
        W: Write,
        E: Write,
    {
        let (numbers, entries) = shared.replies(self.counted)?;
        for number in numbers {
            self.exchanges.hand_out(number)?;
        }
        self.counted = entries;
        Ok(())
    }

    /// Gives it what it awaits of the gateway's node: a segment of the log, and acknowledgements. For these at most so many
    /// messages are received, and they become fewer.
    fn give_wanted<R, T, W, E>(
        &mut self,
        shared: Shared<'_, R, T, W, E>,
        reserve: &mut u32,
    ) -> Result<(), Trouble>
    where
        R: Wait,
        T: std::time::Clock,
        W: Write,
        E: Write,
    {
        let wanted = self.exchanges.wanted()?;
        if let Some(numbers) = wanted.audit {
            if let Some(packet) = shared.segment(numbers)? {
                let _taken = self.exchanges.hand(&packet)?;
            }
        }
        for message in &wanted.messages {
            if let Some(packet) = shared.acknowledgement(message, reserve)? {
                let _taken = self.exchanges.hand(&packet)?;
            }
        }
        Ok(())
    }
}

impl WitnessPeer {
    /// A witness that was told nothing. Doesn't connect.
    pub(crate) fn new(address: String) -> WitnessPeer {
        WitnessPeer {
            address,
            connection: None,
            unanswered: 0,
            said: None,
            has_failed: false,
        }
    }

    /// Where it listens.
    pub(crate) fn address(&self) -> &str {
        self.address.as_str()
    }

    /// Reports what is new to it, and gives what it awaits of the gateway's node. For that at most so many messages are
    /// received, and they become fewer. What it refuses as below its base goes to the keeper.
    pub(crate) fn report<R, T, W, E, K>(
        &mut self,
        shared: Shared<'_, R, T, W, E>,
        reserve: &mut u32,
        keeper: &mut K,
    ) -> Result<(), Trouble>
    where
        R: Wait + Net<Listener = TcpListener, Stream = TcpStream>,
        T: std::time::Clock,
        W: Write,
        E: Write,
        K: Keeper,
    {
        let mut connection = self.connection(shared)?;
        self.report_over(shared, reserve, keeper, &mut connection)?;
        self.connection = Some(connection);
        Ok(())
    }

    /// Reports over a connection.
    fn report_over<R, T, W, E, K>(
        &mut self,
        shared: Shared<'_, R, T, W, E>,
        reserve: &mut u32,
        keeper: &mut K,
        connection: &mut Connection,
    ) -> Result<(), Trouble>
    where
        R: Wait,
        T: std::time::Clock,
        W: Write,
        E: Write,
        K: Keeper,
    {
        self.hand_news(shared, keeper, connection)?;
        self.ask_about_server(shared, connection)?;
        connection.give_wanted(shared, reserve)
    }

    /// Hands it what is new, until it has all or has no room for more.
    fn hand_news<R, T, W, E, K>(
        &mut self,
        shared: Shared<'_, R, T, W, E>,
        keeper: &mut K,
        connection: &mut Connection,
    ) -> Result<(), Trouble>
    where
        R: Wait,
        T: std::time::Clock,
        W: Write,
        E: Write,
        K: Keeper,
    {
        for _ in 0..MOST_ROUNDS {
            let news = shared.news(connection.progress)?;
            connection.count_replies(shared)?;
            connection.hand_all(&news.packets)?;
            let left = self.show_all(shared.context, keeper, connection, &news.shown)?;
            connection.progress = news.progress;
            self.unanswered = news.progress.unanswered;
            if let Some(before) = left {
                connection.progress.entries = before;
                return Ok(());
            }
            if news.is_all {
                return Ok(());
            }
        }
        Ok(())
    }

    /// Shows it what the server signed, in order, until it has no room: then so many entries stand before what it is
    /// to be shown again.
    fn show_all<R, T, W, E, K>(
        &self,
        context: Context<'_, R, T, W, E>,
        keeper: &mut K,
        connection: &mut Connection,
        all: &[Shown],
    ) -> Result<Option<usize>, Trouble>
    where
        R: Wait,
        W: Write,
        E: Write,
        K: Keeper,
    {
        for shown in all {
            let seen = connection.exchanges.show(keeper, &shown.signed, shown.of)?;
            if seen.says == Learned::NoRoom {
                return Ok(Some(shown.before));
            }
            if let Some(error) = seen.unkept {
                self.say_unkept(context, connection, shown, error);
            }
        }
        Ok(None)
    }

    /// Says that what the server signed isn't kept, once for a connection.
    fn say_unkept<R, T, W, E>(
        &self,
        context: Context<'_, R, T, W, E>,
        connection: &mut Connection,
        shown: &Shown,
        error: io::Error,
    )
    where
        R: Wait,
        W: Write,
        E: Write,
    {
        if connection.is_unkept_said {
            return;
        }
        connection.is_unkept_said = true;
        let (alloc, address, number) = (context.alloc, self.address(), shown.of.number());
        context.say(format!(in alloc;
            "nfsacc: witness {address}: number {number} is below its base, and isn't kept: {error}\n"
        ));
    }

    /// Asks what it says of the server, and notes up to which number it answers for the replies.
    fn ask_about_server<R, T, W, E>(
        &self,
        shared: Shared<'_, R, T, W, E>,
        connection: &mut Connection,
    ) -> Result<(), Trouble>
    where
        R: Wait,
        T: std::time::Clock,
        W: Write,
        E: Write,
    {
        let Context {
            rt,
            alloc,
            desk,
            ..
        } = shared.context;
        connection.exchanges.ask()?;
        connection.count_replies(shared)?;
        let assured = Assured {
            address: String::from_str(alloc, self.address.as_str())?,
            to: connection.exchanges.assured(),
        };
        Ok(desk.lock(rt).note_assured(assured)?)
    }

    /// Up to which number it answers for the replies, by its connection.
    fn assured(&self) -> AssuredTo {
        match &self.connection {
            Some(connection) => connection.exchanges.assured(),
            None => AssuredTo::none(),
        }
    }

    /// Says up to which number it answers for the replies, where that isn't what was said last.
    pub(crate) fn say_progress<R, T, W, E>(&mut self, context: Context<'_, R, T, W, E>)
    where
        R: Wait,
        W: Write,
        E: Write,
    {
        let (alloc, assured) = (context.alloc, self.assured());
        if self.said != Some(assured) {
            self.said = Some(assured);
            context.say(progress_line(alloc, self.address(), assured));
        }
    }

    /// The connection that there is, or a new one. It is kept again after a report.
    fn connection<R, T, W, E>(
        &mut self,
        shared: Shared<'_, R, T, W, E>,
    ) -> Result<Connection, Trouble>
    where
        R: Wait + Net<Listener = TcpListener, Stream = TcpStream>,
        T: std::time::Clock,
        W: Write,
        E: Write,
    {
        match self.connection.take() {
            Some(connection) => Ok(connection),
            None => self.connect(shared),
        }
    }

    /// A new connection, once the witness greets with the gateway's roster, and knows of nothing that the client signed and
    /// its log lacks.
    fn connect<R, T, W, E>(&self, shared: Shared<'_, R, T, W, E>) -> Result<Connection, Trouble>
    where
        R: Wait + Net<Listener = TcpListener, Stream = TcpStream>,
        T: std::time::Clock,
        W: Write,
        E: Write,
    {
        let Context {
            rt,
            alloc,
            greeting,
            server,
            ..
        } = shared.context;
        let caller = match WitnessCaller::connect(rt, alloc, self.address(), greeting) {
            Ok(caller) => caller,
            Err(error) => return Err(Trouble::Unreached(error)),
        };
        let mut exchanges = Exchanges::begin(alloc, caller, server)?;
        if let Some(shown) = exchanges.own()? {
            shared.check_own(&shown)?;
        }
        Ok(Connection::new(exchanges, self.unanswered))
    }
}

/// What is made for a witness of the client's log.
impl<'a, R, T, W, E> Shared<'a, R, T, W, E>
where
    R: Wait,
    T: std::time::Clock,
    W: Write,
    E: Write,
{
    /// A witness was shown this of the client: `OwnPutBack` comes where its log lacks it.
    fn check_own(&self, shown: &Authenticator) -> Result<(), Trouble> {
        let client = self.client.lock(self.context.rt);
        match client.client().client().lost(shown) {
            Some(number) => Err(Trouble::OwnPutBack(number.get())),
            None => Ok(()),
        }
    }

    /// What is new since a witness was told so far.
    fn news(&self, progress: Progress) -> Result<News, Trouble> {
        let Context {
            rt,
            alloc,
            desk,
            ..
        } = self.context;
        let unanswered = desk.lock(rt).unanswered(alloc)?;
        let client = self.client.lock(rt);
        Ok(news_since(alloc, client.client().client(), &unanswered, progress)?)
    }

    /// The numbers of the server's replies that were received after so many entries, and how many entries there are.
    fn replies(&self, after: usize) -> Result<(Vec<u64>, usize), Trouble> {
        let Context {
            rt,
            alloc,
            server,
            ..
        } = self.context;
        let client = self.client.lock(rt);
        let node = client.client().client();
        let numbers = replies_after(alloc, node, server, after)?;
        Ok((numbers, node.node().log().entries().len()))
    }

    /// The packet with a segment of the client's log, if the log has it.
    fn segment(&self, numbers: Numbers) -> Result<Option<Vec<u8>>, Trouble> {
        let Context { rt, alloc, .. } = self.context;
        let client = self.client.lock(rt);
        Ok(segment_packet(alloc, client.client().client(), numbers)?)
    }

    /// The packet with the acknowledgement of a message from the server. One that the client never received it
    /// receives now, where the reserve isn't used up and no call is in flight.
    fn acknowledgement(
        &self,
        message: &WantedMessage,
        reserve: &mut u32,
    ) -> Result<Option<Vec<u8>>, Trouble> {
        let shown = self.receipt(&message.envelope)?;
        if shown.is_some() || *reserve == 0 {
            return Ok(shown);
        }
        let mut text = Vec::new(self.context.alloc);
        message.envelope.write(&mut text)?;
        self.receive(&text, reserve)
    }

    /// The packet with the acknowledgement of a message that the client has received.
    fn receipt(&self, envelope: &Envelope) -> Result<Option<Vec<u8>>, Trouble> {
        let Context { rt, alloc, .. } = self.context;
        let client = self.client.lock(rt);
        Ok(receipt_packet(alloc, client.client().client(), envelope)?)
    }

    /// Receives a message's envelope, where the client soon has no call in flight: the packet with its acknowledgement.
    fn receive(&self, text: &[u8], reserve: &mut u32) -> Result<Option<Vec<u8>>, Trouble> {
        let alloc = self.context.alloc;
        let Some(mut client) = self.idle_client() else {
            return Ok(None);
        };
        match client.receive(alloc, text) {
            Ok(received) => {
                if received.is_new() {
                    *reserve = reserve.saturating_sub(1);
                }
                let number = received.number().get();
                Ok(ack_packet(alloc, client.client().client(), number)?)
            }
            Err(AcceptFault::NoMemory) => Err(Trouble::NoMemory),
            Err(_) => Ok(None),
        }
    }

    /// The client, where it has no call in flight within a second or two.
    fn idle_client(&self) -> Option<MutexGuard<'a, SharedClient>> {
        for _ in 0..LOOKS {
            let client = self.client.lock(self.context.rt);
            if client.is_idle() {
                return Some(client);
            }
            drop(client);
            self.context.clock.sleep(Duration::from_millis(LOOK));
        }
        None
    }
}
