//! One command of a conversation.

ghost use Rattle.std.specs.Prelude.{◌≡◌, ◌≤◌, ◌+◌, ◌++◌, ◌∷◌, [], IfOk, OnErr, OnOk, length, take, drop, vec_len};
ghost use Rattle.dss_frames.specs.Group.{command_of};
ghost use Rattle.dss_frames.specs.Writing.{written};
ghost use Rattle.drda_commands.specs.Needs.{Needs};
ghost use Rattle.drda_commands.specs.Views.{given_of};
ghost use Rattle.command_kit.specs.Reply.{resource_limit};
ghost use Rattle.session_commands.specs.Access as answers;
ghost use Rattle.session_commands.specs.Views.{answer_of};
ghost use Rattle.conversation.specs.Exchange as spec;
ghost use Rattle.conversation.specs.Views.{standing_of, verdict_of, Appends, ComesTo};

use crate::access::refused_behind;
use crate::chain::{Link, append_replies, behind, last_format, link_of, worst};
use crate::database::do_on_database;
use crate::sizes::most_length;
use crate::state::State;
use command_kit::Ask;
use drda_commands::{Accepted, Given, Refusal, Stage, judge};
use dss_frames::{Format, Group, OpenedDss, close_dss, open_dss};
use session_commands::{Answer, AtOnce, Settings, answered_at_once, refused};
use sqlam_replies::{ReplyKind, resource_limit};
use std::alloc::{AllocError, Global};

/// What became of a command.
#[derive(Clone, Copy)]
pub(crate) enum Exchanged {
    /// Its replies were appended, where it has some.
    Done,
    /// Memory was refused, and this is its reply.
    Short([u8; 16]),
}

// RSCLMTRM as a whole DSS. Takes no memory.
fn no_memory(format: Format, correlator: u16) -> [u8; 16]
    ensures { result ≡ written format.byte correlator resource_limit.text }
{
    let [high, low] = correlator.to_be_bytes();
    let [m1, m2, m3, m4, m5, m6, m7, m8, m9, m10] = resource_limit();
    [
        0x00,
        0x10,
        0xD0,
        format.byte,
        high,
        low,
        m1,
        m2,
        m3,
        m4,
        m5,
        m6,
        m7,
        m8,
        m9,
        m10,
    ]
}

// Sends the one reply of a command, whose text stands in a DSS that was opened for it. Out of memory the DSS
// is taken away.
#[inline(always)]
fn send_one(
    state: &mut State,
    answer: Answer,
    link: Link,
    dss: OpenedDss,
    out: &mut Vec<u8>,
) -> Result<(), AllocError>
    requires { dss.at + 6 ≤ vec_len out.old }
    ensures session { OnOk result (state.new.session ≡ (spec.sent link answer.session ((answer_of answer (drop (dss.at + 6) out.old.items)).reply ∷ [])).session) }
    ensures bytes { OnOk result (out.new.items ≡ take dss.at out.old.items ++ (spec.sent link answer.session ((answer_of answer (drop (dss.at + 6) out.old.items)).reply ∷ [])).bytes) }
    ensures statements { state.new.statements ≡ state.old.statements }
    ensures err_session { OnErr result (state.new.session ≡ state.old.session) }
    ensures err_out { OnErr result (out.new.items ≡ take dss.at out.old.items) }
{
    let session = behind(answer.session, link, answer.severity);
    let is_chained = link.is_chained && !session.is_broken;
    let format = last_format(answer.kind, is_chained);
    close_dss(out, dss, format, link.correlator)?;
    state.session = session;
    Ok(())
}

// Does a command on the database and appends its replies. Out of memory nothing is asked, and nothing
// appended. The memory that its replies take is there before anything is asked.
#[inline(never)]
fn run<A: Ask>(
    alloc: Global,
    settings: &Settings,
    state: &mut State,
    accepted: Accepted<'_>,
    link: Link,
    asker: &mut A,
    out: &mut Vec<u8>,
) -> Result<(), AllocError>
    requires brings { Needs accepted.command (given_of accepted.given) }
    ensures ok { OnOk result (Appends A.asks (spec.database_plan settings.now state.old.session state.old.statements accepted.entry.command (given_of accepted.entry.given)) link (standing_of state.old asker.old) out.old.items (standing_of state.new asker.new) out.new.items) }
    ensures standing { OnErr result (standing_of state.new asker.new ≡ standing_of state.old asker.old) }
    ensures out { OnErr result (out.new.items ≡ out.old.items) }
{
    let unicode = state.session.agreed.unicode;
    let database_name = settings.database_name(unicode);
    state.replies.clear();
    state
        .cursors
        .admit(&accepted, &state.statements, &mut state.told)?;
    out.reserve(most_length(&accepted, &state.statements))?;
    do_on_database(
        alloc,
        accepted,
        database_name,
        unicode,
        &mut state.statements,
        asker,
        &mut state.replies,
    )?;
    let severity = worst(state.replies.as_list());
    state
        .cursors
        .note(alloc, &accepted, &state.statements, severity);
    let session = behind(state.session, link, severity);
    let is_chained = link.is_chained && !session.is_broken;
    append_replies(out, link.correlator, is_chained, state.replies.as_list());
    state.session = session;
    state.replies.clear();
    Ok(())
}

// Answers a refused command. Out of memory nothing is appended.
#[inline(never)]
fn refuse(
    settings: &Settings,
    state: &mut State,
    refusal: Refusal,
    link: Link,
    out: &mut Vec<u8>,
) -> Result<(), AllocError>
    ensures session { OnOk result (state.new.session ≡ (spec.sent link state.old.session ((answers.refused settings.now state.old.session refusal).reply ∷ [])).session) }
    ensures bytes { OnOk result (out.new.items ≡ out.old.items ++ (spec.sent link state.old.session ((answers.refused settings.now state.old.session refusal).reply ∷ [])).bytes) }
    ensures statements { state.new.statements ≡ state.old.statements }
    ensures err_session { OnErr result (state.new.session ≡ state.old.session) }
    ensures err_out { OnErr result (out.new.items ≡ out.old.items) }
{
    let dss = open_dss(out)?;
    match refused(settings, state.session, refusal, out) {
        Ok(answer) => send_one(state, answer, link, dss, out),
        Err(error) => {
            out.truncate(dss.at);
            Err(error)
        }
    }
}

// Counts a check of the user that has failed, where the command is one and leaves this stage.
#[inline(always)]
fn count_check(state: &mut State, what: AtOnce, stage: Stage)
    ensures session { state.new.session ≡ state.old.session }
    ensures statements { state.new.statements ≡ state.old.statements }
{
    if let AtOnce::Secchk = what {
        state.refused = refused_behind(state.refused, stage);
    }
}

// Answers a command that the core is not asked for. Out of memory nothing is appended.
#[inline(always)]
fn tell(
    settings: &Settings,
    state: &mut State,
    what: AtOnce,
    given: Given<'_>,
    link: Link,
    out: &mut Vec<u8>,
) -> Result<(), AllocError>
    ensures session { OnOk result (state.new.session ≡ (spec.sent link (answers.answered_at_once settings.now state.old.session what (given_of given.entry)).session ((answers.answered_at_once settings.now state.old.session what (given_of given.entry)).reply ∷ [])).session) }
    ensures bytes { OnOk result (out.new.items ≡ out.old.items ++ (spec.sent link (answers.answered_at_once settings.now state.old.session what (given_of given.entry)).session ((answers.answered_at_once settings.now state.old.session what (given_of given.entry)).reply ∷ [])).bytes) }
    ensures statements { state.new.statements ≡ state.old.statements }
    ensures err_session { OnErr result (state.new.session ≡ state.old.session) }
    ensures err_out { OnErr result (out.new.items ≡ out.old.items) }
{
    let dss = open_dss(out)?;
    match answered_at_once(settings, state.session, what, given, out) {
        Ok(answer) => {
            count_check(state, what, answer.session.stage);
            send_one(state, answer, link, dss, out)
        }
        Err(error) => {
            out.truncate(dss.at);
            Err(error)
        }
    }
}

// Does a command of which the judge says this. Out of memory nothing is asked, and nothing appended.
#[inline(always)]
fn answer<A: Ask>(
    alloc: Global,
    settings: &Settings,
    state: &mut State,
    verdict: Result<Accepted<'_>, Refusal>,
    link: Link,
    asker: &mut A,
    out: &mut Vec<u8>,
) -> Result<(), AllocError>
    requires brings { IfOk verdict (λ a. Needs a.command (given_of a.given)) }
    ensures ok { OnOk result (Appends A.asks (spec.plan settings.now state.old.session state.old.statements (verdict_of verdict.entry)) link (standing_of state.old asker.old) out.old.items (standing_of state.new asker.new) out.new.items) }
    ensures standing { OnErr result (standing_of state.new asker.new ≡ standing_of state.old asker.old) }
    ensures out { OnErr result (out.new.items ≡ out.old.items) }
{
    let accepted = match verdict {
        Ok(accepted) => accepted,
        Err(refusal) => return refuse(settings, state, refusal, link, out),
    };
    match AtOnce::of(state.session, accepted.command) {
        Some(what) => tell(settings, state, what, accepted.given, link, out),
        None => run(alloc, settings, state, accepted, link, asker, out),
    }
}

/// Judges and does a command, and appends its replies to `out`. For want of memory nothing is asked, done
/// or appended, and the reply that says so is handed out.
pub(crate) fn do_command<A: Ask>(
    alloc: Global,
    settings: &Settings,
    state: &mut State,
    group: Group<'_>,
    asker: &mut A,
    out: &mut Vec<u8>,
) -> Exchanged
    ensures { ComesTo A.asks settings.now (standing_of state.old asker.old) (command_of group.entry) out.old.items result (standing_of state.new asker.new) out.new.items }
{
    let Some((request, objects)) = group.split_first() else {
        return Exchanged::Done;
    };
    let link = link_of(request, objects);
    let session = state.session;
    if session.is_broken {
        state.session.is_broken = link.is_chained;
        return Exchanged::Done;
    }
    let unicode = session.agreed.unicode;
    let verdict = judge(session.stage, unicode, request.contents, objects);
    match answer(alloc, settings, state, verdict, link, asker, out) {
        Ok(()) => Exchanged::Done,
        Err(AllocError) => {
            state.session = behind(session, link, 8);
            let is_chained = link.is_chained && !state.session.is_broken;
            let format = last_format(ReplyKind::Message, is_chained);
            Exchanged::Short(no_memory(format, link.correlator))
        }
    }
}
