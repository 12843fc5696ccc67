ghost use Rattle.std.specs.Prelude.{◌≡◌, ◌≢◌, IfErr, IfOk};
ghost use Rattle.act_sessions.specs.Exchange.{AreAsked, exchanges_by};
ghost use Rattle.service_rounds.specs.Connections.{IsHeard, IsUnaccepted};

use crate::closing::close;
use act_sessions::{Answer, Ending, SessionFault, Transcript, Work};
use std::alloc::Global;
use std::io::{Read, Write};
use std::net::{TcpListener, TcpStream};

/// A session that has not started: the port that accepts its stream, which determines its protocol.
#[derive(Drop)]
pub enum Connection<'a> {
    Hook(&'a TcpListener),
    Runner(&'a TcpListener),
}

/// The next stream of a port. It disables Nagle's algorithm, so that what is written is sent at once.
fn accepted(listener: &TcpListener) -> Option<TcpStream> {
    let (stream, _) = listener.accept().ok()?;
    stream.set_nodelay(true).ok()?;
    Some(stream)
}

/// A session whose stream could not be accepted: nothing was read or asked.
fn unaccepted(alloc: Global) -> SessionFault
    ensures { IsUnaccepted result.transcript }
{
    SessionFault {
        transcript: Transcript::new(alloc).ended(Ending::Broken),
    }
}

impl<'a> Connection<'a> {
    fn listener(&self) -> &'a TcpListener {
        match self {
            Connection::Hook(listener) => listener,
            Connection::Runner(listener) => listener,
        }
    }
}

/// Serves a session over a stream, in its port's protocol.
fn hold<R: Read, W: Write, A: Answer>(
    connection: &Connection<'_>,
    alloc: Global,
    reader: &mut R,
    writer: &mut W,
    answer: &mut A,
) -> Result<Transcript, SessionFault>
    ensures ok { IfOk result (λ t. (t.ending ≡ Ending.Done) × IsHeard connection.now t × AreAsked (A.asked answer.old) (A.asked answer.new) (exchanges_by t)) }
    ensures err { IfErr result (λ f. (f.transcript.ending ≢ Ending.Done) × IsHeard connection.now f.transcript
        × AreAsked (A.asked answer.old) (A.asked answer.new) (exchanges_by f.transcript)) }
{
    match connection {
        Connection::Hook(_) => webhook_sessions::Session::run(alloc, reader, writer, answer),
        Connection::Runner(_) => runner_sessions::Session::run(alloc, reader, writer, answer),
    }
}

impl<'a> Work for Connection<'a> {
    ghost use Rattle.service_rounds.specs.Connections.{IsHeard};

    // No contract describes the bytes of a socket, except that they follow the port's protocol.
    ghost ends = { IsHeard };

    fn work<A: Answer>(self, alloc: Global, answer: &mut A) -> Result<Transcript, SessionFault> {
        let Some(stream) = accepted(self.listener()) else {
            return Err(unaccepted(alloc));
        };
        let (mut reader, mut writer) = (&stream, &stream);
        let ended = hold(&self, alloc, &mut reader, &mut writer, answer);
        close(stream);
        ended
    }
}
