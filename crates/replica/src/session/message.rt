//! Messages of a source before the dump.

ghost use Rattle.std.specs.Prelude.{◌≡◌, OnOk, OnErr, IfOk, IfErr, Option};
ghost use Rattle.binlog.specs.Filter.{Names};
ghost use Rattle.greet.specs.View.{Refuses};
ghost use Rattle.greet.specs.Refusal.{Refusal};
ghost use Rattle.gtid.specs.Identifier.{Ids};
ghost use Rattle.replica.specs.Stream.{next_due, Hello, Reply, SecondReply, QueryReply, InDump};
ghost use Rattle.replica.specs.Conn.{IsOwn};
ghost use Rattle.replica.specs.Standing.{due_at, due_of};
ghost use Rattle.replica.specs.PayloadStep.{IsAnswered, EndsAt, IsReportOf};

use crate::session::config::Config;
use crate::session::end::Reason;
use crate::session::login::{ask, log_in, log_in_again, turn_checksums_off};
use crate::session::phase::{Login, Phase};
use greet::{AuthReply, GreetFault, Greeting, read_ok};
use gtid::GtidSet;

/// Maps a greet fault to a reason.
pub(crate) fn reported(fault: GreetFault) -> Reason
    ensures reported { (refusal : Option Refusal) → Refuses refusal fault
        → IsReportOf refusal result }
    ensures may_end { IsOwn result }
{
    match fault {
        GreetFault::ServerError {
            code,
            state,
            message,
        } => Reason::SourceError {
            code,
            state,
            message,
        },
        GreetFault::Memory => Reason::Memory,
        other => Reason::Greet(other),
    }
}

/// Takes the greeting, and returns the phase after it.
fn take_greeting(config: &Config, payload: &[u8], out: &mut Vec<u8>) -> Result<Phase, Reason>
    ensures ok { (names : Names) (executed : Ids)
        → OnOk result (IsAnswered config.now names executed Hello payload.now out.old.items
        out.new.items) }
    ensures due { IfOk result (λ phase. due_of phase ≡ Reply) }
    ensures err { (names : Names) (executed : Ids)
        → IfErr result (EndsAt names executed Hello payload.now) }
    ensures kept { OnErr result (out.new.items ≡ out.old.items) }
    ensures may_end { IfErr result IsOwn }
{
    match Greeting::read(config.alloc(), payload) {
        Ok(greeting) => {
            log_in(config, &greeting.scramble, out)?;
            Ok(Phase::Login(Login::Reply))
        }
        Err(fault) => Err(reported(fault)),
    }
}

/// Takes the reply to the login, and returns the phase after it.
fn take_reply(config: &Config, payload: &[u8], out: &mut Vec<u8>) -> Result<Phase, Reason>
    ensures ok { (names : Names) (executed : Ids)
        → OnOk result (IsAnswered config.now names executed Reply payload.now out.old.items
        out.new.items) }
    ensures due { IfOk result (λ phase. due_of phase ≡ next_due Reply payload.now) }
    ensures err { (names : Names) (executed : Ids)
        → IfErr result (EndsAt names executed Reply payload.now) }
    ensures kept { OnErr result (out.new.items ≡ out.old.items) }
    ensures may_end { IfErr result IsOwn }
{
    match AuthReply::read(config.alloc(), payload) {
        Ok(AuthReply::Ok) => {
            turn_checksums_off(config.alloc(), out)?;
            Ok(Phase::Login(Login::QueryReply))
        }
        Ok(AuthReply::Switch { scramble }) => {
            log_in_again(config, &scramble, out)?;
            Ok(Phase::Login(Login::SecondReply))
        }
        Err(fault) => Err(reported(fault)),
    }
}

/// Takes the reply to the login after a switch, and returns the phase after it.
fn take_second_reply(config: &Config, payload: &[u8], out: &mut Vec<u8>) -> Result<Phase, Reason>
    ensures ok { (names : Names) (executed : Ids)
        → OnOk result (IsAnswered config.now names executed SecondReply payload.now out.old.items
        out.new.items) }
    ensures due { IfOk result (λ phase. due_of phase ≡ QueryReply) }
    ensures err { (names : Names) (executed : Ids)
        → IfErr result (EndsAt names executed SecondReply payload.now) }
    ensures kept { OnErr result (out.new.items ≡ out.old.items) }
    ensures may_end { IfErr result IsOwn }
{
    match read_ok(config.alloc(), payload) {
        Ok(()) => {
            turn_checksums_off(config.alloc(), out)?;
            Ok(Phase::Login(Login::QueryReply))
        }
        Err(fault) => Err(reported(fault)),
    }
}

/// Takes the reply to the query, and returns the phase after it.
fn take_query_reply(
    config: &Config,
    executed: &GtidSet,
    payload: &[u8],
    out: &mut Vec<u8>,
) -> Result<Phase, Reason>
    ensures ok { (names : Names) → OnOk result (IsAnswered config.now names executed.now QueryReply
        payload.now out.old.items out.new.items) }
    ensures due { IfOk result (λ phase. due_of phase ≡ InDump) }
    ensures err { (names : Names) → IfErr result
        (EndsAt names executed.now QueryReply payload.now) }
    ensures kept { OnErr result (out.new.items ≡ out.old.items) }
    ensures may_end { IfErr result IsOwn }
{
    match read_ok(config.alloc(), payload) {
        Ok(()) => {
            ask(config, executed, out)?;
            Ok(Phase::Dump)
        }
        Err(fault) => Err(reported(fault)),
    }
}

/// Takes a message before the dump, and returns the phase after it.
pub(crate) fn answer(
    login: Login,
    config: &Config,
    executed: &GtidSet,
    payload: &[u8],
    out: &mut Vec<u8>,
) -> Result<Phase, Reason>
    ensures ok { (names : Names) → OnOk result (IsAnswered config.now names executed.now
        (due_at login) payload.now out.old.items out.new.items) }
    ensures due { IfOk result (λ next. due_of next ≡ next_due (due_at login) payload.now) }
    ensures err { (names : Names) → IfErr result
        (EndsAt names executed.now (due_at login) payload.now) }
    ensures kept { OnErr result (out.new.items ≡ out.old.items) }
    ensures may_end { IfErr result IsOwn }
{
    match login {
        Login::Greeting => take_greeting(config, payload, out),
        Login::Reply => take_reply(config, payload, out),
        Login::SecondReply => take_second_reply(config, payload, out),
        Login::QueryReply => take_query_reply(config, executed, payload, out),
    }
}
