//! One of two ends that run by turns over one memory, step by step.
ghost use Rattle.std.specs.Prelude.{◌≡◌, ◌≤◌, ◌<◌, ◌+◌, IsTrue, false, true};
ghost use Rattle.ring_machine.specs.declared.machine.Stage.TheVariants.{Idle};
ghost use Rattle.ring_machine.specs.PageCalls.{core_pages};
ghost use Rattle.ring_machine.specs.Steps.{is_busy_at};

use crate::random::Random;
use line_words::hex_16;
use ring_core::{EndCore, EndMachine, Seatlike, Side, SoloMem, Stage};
use std::alloc::{AllocError, Global};
use trace_text::Recorder;

/// An end, the recorder by which it makes its steps, the packet that it sends, how many steps it made and packets it sent and got, and how much of its text was told.
#[derive(Drop)]
pub struct Turn {
    core: EndCore,
    recorder: Recorder<SoloMem>,
    packet: Vec<u64>,
    steps: u32,
    sent: u32,
    got: u32,
    told: usize,
    ghost bare: { core.pages ≡ core_pages 0 },
    ghost cells: { core.machine.cells ≡ 512 },
    ghost fits: { recorder.seat.cells ≡ 512 },
    ghost none: { recorder.seat.pages ≡ 0 },
}

fn is_idle(m: &EndMachine) -> bool
    ensures { IsTrue result → m.now.stage ≡ Idle }
{
    matches!(m.stage, Stage::Idle)
}

fn is_awake(m: &EndMachine) -> bool
    ensures { IsTrue result → (m.now.stage ≡ Idle) × (m.now.asleep ≡ false) × (m.now.marked ≡ false) }
{
    is_idle(m) && !m.asleep && !m.marked
}

// Makes the step that the machine names.
fn perform(recorder: &mut Recorder<SoloMem>, core: &EndCore, packet: &[u64]) -> u64
    requires busy { is_busy_at core.now.machine.stage ≡ true }
    requires bare { core.now.pages ≡ core_pages 0 }
    requires fits { recorder.old.seat.cells ≡ core.now.machine.cells }
    ensures cells { recorder.new.seat.cells ≡ recorder.old.seat.cells }
    ensures pages { recorder.new.seat.pages ≡ recorder.old.seat.pages }
{
    recorder.perform(core, packet)
}

// Takes what the step gave.
fn feed(core: &mut EndCore, v: u64)
    requires { is_busy_at core.old.machine.stage ≡ true }
    ensures cells { core.new.machine.cells ≡ core.old.machine.cells }
    ensures pages { core.new.pages ≡ core.old.pages }
{
    core.feed(v);
}

fn side_name(side: Side) -> &'static [u8] {
    match side {
        Side::Guest => b"guest",
        Side::Host => b"host",
    }
}

// An in-band packet of so many words, whose others come from here.
fn packet(alloc: Global, random: &mut Random, words: u32) -> Result<Vec<u64>, AllocError> {
    let mut p = Vec::new(alloc);
    p.push(u64::from(words) * 0x1_0000_0000 + 0x2_0006)?;
    for _ in 1..words {
        p.push(random.number().wrapping_mul(random.number()))?;
    }
    Ok(p)
}

// The words of a call.
fn say(text: &mut Vec<u8>, side: Side, call: &[u8]) -> Result<(), AllocError> {
    text.extend_from_slice(b"call ")?;
    text.extend_from_slice(side_name(side))?;
    text.push(b' ')?;
    text.extend_from_slice(call)
}

// The line of a send of this packet.
fn say_send(text: &mut Vec<u8>, side: Side, packet: &[u64]) -> Result<(), AllocError> {
    say(text, side, b"send")?;
    let mut between = b' ';
    for word in packet.iter() {
        text.push(between)?;
        text.extend_from_slice(&hex_16(*word))?;
        between = b',';
    }
    text.push(b'\n')?;
    Ok(())
}

impl Turn {
    /// A new end of a channel of one page, over memory of its own, with room for the text of so many steps.
    pub fn make(alloc: Global, side: Side, steps: u32) -> Result<Turn, AllocError> {
        let solo = SoloMem::make(alloc, 4096, 0)?;
        let room = 80 * steps as usize;
        Ok(Turn {
            core: EndCore::make(side, 4096, 0),
            recorder: Recorder::make(alloc, side, solo, room)?,
            packet: Vec::new(alloc),
            steps: 0,
            sent: 0,
            got: 0,
            told: 0,
        })
    }

    /// Exchanges the memories of two ends.
    pub fn swap(&mut self, other: &mut Turn) {
        self.recorder.swap_seats(&mut other.recorder);
    }

    /// The steps that it made, the packets that it sent, and those that it got.
    pub fn counts(&self) -> (u32, u32, u32) {
        (self.steps, self.sent, self.got)
    }

    /// Whether it can begin a call, and isn't asleep.
    pub fn is_free(&self) -> bool {
        is_awake(&self.core.machine)
    }

    /// Whether its recorder has no room left.
    pub fn full(&self) -> bool {
        self.recorder.full()
    }

    // Sends a packet of at least two words, and seldom one that takes much of the ring.
    fn send(
        &mut self,
        alloc: Global,
        random: &mut Random,
        text: &mut Vec<u8>,
    ) -> Result<(), AllocError> {
        let words = if random.number() % 32 == 0 {
            200
        } else {
            2 + (random.number() % 3) as u32
        };
        if is_awake(&self.core.machine) {
            let packet = packet(alloc, random, words)?;
            say_send(text, self.core.machine.side, &packet)?;
            self.core.begin_send(words);
            self.packet = packet;
        }
        Ok(())
    }

    // Arms, where all that was taken is committed, and often for room of 24 bytes besides.
    fn arm(&mut self, random: &mut Random, text: &mut Vec<u8>) -> Result<(), AllocError> {
        let m = &self.core.machine;
        if !is_awake(m) || m.start != m.read {
            return Ok(());
        }
        if random.number() % 2 == 0 {
            say(text, m.side, b"arm\n")?;
            self.core.begin_arm(None);
        } else {
            say(text, m.side, b"arm 24\n")?;
            self.core.begin_arm(Some(24));
        }
        Ok(())
    }

    // Begins a call that has no words: seldom the mark, behind which an end makes no call.
    fn begin_plain(&mut self, random: &mut Random, text: &mut Vec<u8>) -> Result<(), AllocError> {
        if !is_awake(&self.core.machine) {
            return Ok(());
        }
        let side = self.core.machine.side;
        match random.number() % 4_096 {
            0 => {
                say(text, side, b"mark\n")?;
                self.core.begin_mark();
            }
            1..=2_000 => {
                say(text, side, b"take\n")?;
                self.core.begin_take();
            }
            2_001..=3_600 => {
                say(text, side, b"commit\n")?;
                self.core.begin_commit();
            }
            _ => {
                say(text, side, b"peer\n")?;
                self.core.begin_peer_mark();
            }
        }
        Ok(())
    }

    // Begins a call that comes next here, where there is one: an end that is asleep polls, and one that is marked makes no call.
    fn begin(
        &mut self,
        alloc: Global,
        random: &mut Random,
        may_arm: bool,
        text: &mut Vec<u8>,
    ) -> Result<(), AllocError> {
        if is_idle(&self.core.machine) && self.core.machine.asleep {
            say(text, self.core.machine.side, b"poll\n")?;
            self.core.begin_poll();
            return Ok(());
        }
        match random.number() % 32 {
            0..=10 => self.send(alloc, random, text),
            11..=14 if may_arm => self.arm(random, text),
            _ => self.begin_plain(random, text),
        }
    }

    // Makes the next step of the call that is under way, and tells it.
    fn step(&mut self, text: &mut Vec<u8>) -> Result<(), AllocError> {
        if !self.core.is_busy() {
            return Ok(());
        }
        let v = perform(&mut self.recorder, &self.core, &self.packet);
        let m = &self.core.machine;
        let last = u64::from(m.done) + 1 >= u64::from(m.len);
        match m.stage {
            Stage::SendWrite => self.sent = self.sent.wrapping_add(1),
            Stage::TakeCell if last => self.got = self.got.wrapping_add(1),
            _ => {}
        }
        self.steps = self.steps.wrapping_add(1);
        feed(&mut self.core, v);
        let all = self.recorder.text();
        if self.told <= all.len() {
            text.extend_from_slice(&all[self.told..])?;
        }
        self.told = all.len();
        Ok(())
    }

    /// Goes on by a step of the call that is under way, or begins one, and writes its line.
    pub fn turn(
        &mut self,
        alloc: Global,
        random: &mut Random,
        may_arm: bool,
        text: &mut Vec<u8>,
    ) -> Result<(), AllocError> {
        if self.core.is_busy() {
            self.step(text)
        } else {
            self.packet.clear();
            self.begin(alloc, random, may_arm, text)
        }
    }
}
