//! The lines of a transcript.

ghost use Rattle.std.specs.Prelude.{◌≡◌, ◌⊎◌, ◌++◌, IfErr, OnOk, OnErr, IfOk, codes, string_bytes, option_map};
ghost use Rattle.std.specs.Io.KnownBytes.{Appends};
ghost use Rattle.press_text.specs.Streams.{AppendsFront};
ghost use Rattle.press_world.specs.Transcript.{end_line, head_line, left_text, node_text, outcome_text, page_of, page_text, played_text, receiver_text, sent_text, step_line, step_text, target_text};

use crate::fault::WorldFault;
use crate::played::Played;
use crate::replay_fault::ReplayFault;
use crate::step::Step;
use itoa::{Buffer, Integer};
use press_page::{Reply, Target};
use press_text::write_once;
use std::alloc::{AllocError, Global};
use std::io::Write;

// Most lines have fewer bytes.
const ROOM: usize = 96;

fn push(line: &mut String, text: &str) -> Result<(), AllocError>
    ensures { OnOk result (string_bytes line.new ≡ string_bytes line.old ++ text.now) }
{
    line.push_str(text)
}

fn push_number<I: Integer>(line: &mut String, before: &str, n: I) -> Result<(), AllocError>
    ensures { OnOk result (string_bytes line.new
        ≡ string_bytes line.old ++ (before.now ++ I.text n)) }
{
    let mut digits = Buffer::new();
    line.push_str(before)?;
    line.push_str(digits.format(n))
}

fn push_target(line: &mut String, target: &Target) -> Result<(), AllocError>
    ensures { OnOk result (string_bytes line.new
        ≡ string_bytes line.old ++ target_text target.now) }
{
    match target {
        Target::Front => push(line, "front"),
        Target::Post(id) => push_number(line, "post:", *id),
        Target::Json(id) => push_number(line, "json:", *id),
        Target::Result(token) => {
            push(line, "result:")?;
            push(line, token.editor.as_str())?;
            push_number(line, "/", token.seq)
        }
    }
}

fn push_receiver(line: &mut String, to: Option<u64>) -> Result<(), AllocError>
    ensures { OnOk result (string_bytes line.new ≡ string_bytes line.old ++ receiver_text to) }
{
    match to {
        None => Ok(()),
        Some(node) => push_number(line, " node ", node),
    }
}

fn push_step(line: &mut String, to: Option<u64>, step: &Step) -> Result<(), AllocError>
    ensures { OnOk result (string_bytes line.new ≡ string_bytes line.old ++ step_text to step.now) }
{
    match step {
        Step::Submit { node, .. } => push_number(line, "submit ", *node),
        Step::Wake { node, .. } => push_number(line, "wake ", *node),
        Step::Deliver { message, .. } => {
            push_number(line, "deliver ", *message)?;
            push_receiver(line, to)
        }
        Step::Restart { node } => push_number(line, "restart ", *node),
        Step::Get { node, target } => {
            push_number(line, "get ", *node)?;
            push(line, " ")?;
            push_target(line, target)
        }
    }
}

fn push_sent(line: &mut String, first: u64, count: u64) -> Result<(), AllocError>
    ensures { OnOk result (string_bytes line.new ≡ string_bytes line.old ++ sent_text first count) }
{
    if count == 0 {
        return push(line, " sent 0");
    }
    let last = u128::from(first) + u128::from(count) - 1;
    push_number(line, " sent ", first)?;
    push_number(line, "-", last)
}

fn push_left(line: &mut String, stopped: bool, applied: u64) -> Result<(), AllocError>
    ensures { OnOk result (string_bytes line.new
        ≡ string_bytes line.old ++ left_text stopped applied) }
{
    if stopped {
        push(line, " stop")
    } else {
        push_number(line, " k=", applied)
    }
}

fn push_played(line: &mut String, played: &Played) -> Result<(), AllocError>
    ensures { OnOk result (string_bytes line.new
        ≡ string_bytes line.old ++ played_text played.now.reply played.now) }
{
    match &played.reply {
        None => {
            push_sent(line, played.first, played.count)?;
            push_left(line, played.stopped, played.applied)
        }
        Some(page) => {
            push_number(line, " ", page.status)?;
            push_number(line, " ", page.body.len())?;
            push_number(line, " k=", played.applied)
        }
    }
}

fn push_outcome(line: &mut String, played: &Result<Played, WorldFault>) -> Result<(), AllocError>
    ensures { OnOk result (string_bytes line.new
        ≡ string_bytes line.old ++ outcome_text played.now) }
{
    match played {
        Ok(played) => push_played(line, played),
        Err(fault) => push_number(line, " fault ", fault.number()),
    }
}

// The bytes, and one LF.
fn write_page<W: Write>(writer: &mut W, body: &[u8]) -> Result<(), ReplayFault>
    ensures ok { OnOk result (Appends (W.contents writer.old) (W.contents writer.new)
        (body.now ++ codes "\n")) }
    ensures err { OnErr result (AppendsFront (W.contents writer.old) (W.contents writer.new)
        (body.now ++ codes "\n")) }
    ensures fault { IfErr result (λ e. e ≡ ReplayFault.WriteFault) }
{
    write_once(writer, body)?;
    write_once(writer, b"\n")?;
    Ok(())
}

fn write_with_page<W: Write>(
    writer: &mut W,
    head: &[u8],
    page: Option<&Reply>,
) -> Result<(), ReplayFault>
    ensures ok { OnOk result (Appends (W.contents writer.old) (W.contents writer.new)
        (head.now ++ page_text (option_map (λ p. p.now) page.entry))) }
    ensures err { OnErr result (AppendsFront (W.contents writer.old) (W.contents writer.new)
        (head.now ++ page_text (option_map (λ p. p.now) page.entry))) }
    ensures fault { IfErr result (λ e. e ≡ ReplayFault.WriteFault) }
{
    write_once(writer, head)?;
    match page {
        None => Ok(()),
        Some(page) => write_page(writer, page.body.as_bytes()),
    }
}

/// A step as a transcript shows it.
#[derive(Clone, Copy)]
pub(crate) struct StepLine<'a> {
    /// The node that its message is to, if the message exists.
    pub to: Option<u64>,
    pub number: u64,
    pub step: &'a Step,
    pub played: &'a Result<Played, WorldFault>,
}

impl StepLine<'_> {
    fn head(&self, alloc: Global) -> Result<String, AllocError>
        ensures { IfOk result (λ t. string_bytes t
            ≡ head_line self.now.to self.now.number self.now.step.now self.now.played.now) }
    {
        let mut line = String::with_capacity(alloc, ROOM)?;
        push_number(&mut line, "", self.number)?;
        push(&mut line, " ")?;
        push_step(&mut line, self.to, self.step)?;
        push_outcome(&mut line, self.played)?;
        push(&mut line, "\n")?;
        Ok(line)
    }

    fn page(&self) -> Option<&Reply>
        ensures { option_map (λ p. p.now) result ≡ page_of self.now.played.now }
    {
        match self.played {
            Ok(played) => played.reply.as_ref(),
            Err(_) => None,
        }
    }

    /// Writes the line, and the page on lines of its own, each byte once.
    #[tactic(auto, unfolding(crate::specs::Transcript::step_line))]
    pub(crate) fn write<W: Write>(&self, alloc: Global, writer: &mut W) -> Result<(), ReplayFault>
        ensures ok { OnOk result (Appends (W.contents writer.old) (W.contents writer.new)
            (step_line self.now.to self.now.number self.now.step.now self.now.played.now)) }
        ensures err { OnErr result (AppendsFront (W.contents writer.old) (W.contents writer.new)
            (step_line self.now.to self.now.number self.now.step.now self.now.played.now)) }
        ensures fault { IfErr result (λ e. (e ≡ ReplayFault.WriteFault)
            ⊎ (e ≡ ReplayFault.NoMemory)) }
    {
        let head = self.head(alloc)?;
        write_with_page(writer, head.as_bytes(), self.page())
    }
}

fn push_node(line: &mut String, applied: Option<u64>) -> Result<(), AllocError>
    ensures { OnOk result (string_bytes line.new ≡ string_bytes line.old ++ node_text applied) }
{
    match applied {
        None => push(line, " -"),
        Some(applied) => push_number(line, " ", applied),
    }
}

#[tactic(auto, unfolding(crate::specs::Transcript::end_line))]
fn last_line(alloc: Global, nodes: &[Option<u64>]) -> Result<String, AllocError>
    ensures { IfOk result (λ t. string_bytes t ≡ end_line nodes.now) }
{
    let mut line = String::from_str(alloc, "end")?;
    for applied in nodes {
        push_node(&mut line, *applied)?;
    }
    push(&mut line, "\n")?;
    Ok(line)
}

/// Writes the last line, of what each node has applied, each byte once.
pub(crate) fn write_end_line<W: Write>(
    alloc: Global,
    writer: &mut W,
    nodes: &[Option<u64>],
) -> Result<(), ReplayFault>
    ensures ok { OnOk result (Appends (W.contents writer.old) (W.contents writer.new)
        (end_line nodes.now)) }
    ensures err { OnErr result (AppendsFront (W.contents writer.old) (W.contents writer.new)
        (end_line nodes.now)) }
    ensures fault { IfErr result (λ e. (e ≡ ReplayFault.WriteFault) ⊎ (e ≡ ReplayFault.NoMemory)) }
{
    let line = last_line(alloc, nodes)?;
    write_once(writer, line.as_bytes())?;
    Ok(())
}
