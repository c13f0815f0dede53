ghost use Rattle.std.specs.Prelude.{◌≡◌, ◌<◌, ◌-◌, ◌∷◌, Some, None, IfOk, IfSome, OnOk, OnErr, length, slice_get, slice_index};
ghost use Rattle.std.specs.Option.{option_map};
ghost use Rattle.std.specs.Arc.{arc_value};
ghost use Rattle.script_tree.specs.WellFormed.{IsValue};
ghost use Rattle.fiber_body.specs.Context.{standing_under, under, value, with_register};
ghost use Rattle.fiber_body.specs.New.{IsNew};
ghost use Rattle.fiber_body.specs.Shown.{IsFrame, IsPopped, MayBeCurrent, stood};
ghost use Rattle.fiber_body.specs.Texts.{block_in};

use crate::standing::{Frame, Standing};
use crate::texts::block_of;
use entry_log::FiberLog;
use pic_base::{CompNo, FiberNo, Memory, STEPS, Value};
use pic_machine::{Birth, Duties};
use script_tree::{Operand, Program};
use std::alloc::Global;
use std::marker::Model;
use std::snapshot::Snapshot;
use std::sync::Arc;

/// A fiber's body: all that a fiber is between two entries. Contracts see it as the `Shown` of
/// `specs/Shown.antt`. It has a block of memory of its own, so to move it costs no more than a pointer.
#[derive(Drop)]
pub struct Body {
    pub(crate) content: Box<Content>,
}

/// What the block of a body has.
#[derive(Drop)]
pub(crate) struct Content {
    program: Option<Arc<Program>>,
    pub(crate) birth: Birth,
    pub(crate) number: Option<FiberNo>,
    pub(crate) registers: [Value; 16],
    pub(crate) cells: [Value; 16],
    steps: u32,
    current: CompNo,
    permitted: bool,
    standing: Standing,
    frames: Vec<Frame>,
    pub(crate) noted: FiberLog,
    // What the fiber owes stands in the port's world; contracts alone see it here.
    pub(crate) owed: Snapshot<Duties>,
}

impl Model for Body {
    ghost use Rattle.std.specs.Prelude.{reverse};
    ghost use Rattle.fiber_body.specs.Shown.{Shown};
    ghost use Rattle.std.specs.Option.{option_map};
    ghost use Rattle.std.specs.Arc.{arc_value};

    ghost Value = { Shown };

    ghost view = { λ body. record {
      program = option_map arc_value body.content.value.program;
      birth = body.content.value.birth;
      number = body.content.value.number;
      context = record {
        registers = body.content.value.registers;
        cells = body.content.value.cells;
        steps = body.content.value.steps;
        current = body.content.value.current;
        permitted = body.content.value.permitted;
      };
      standing = body.content.value.standing;
      frames = reverse body.content.value.frames.items;
      noted = body.content.value.noted.entries;
      room = body.content.value.noted.room;
      owes = body.content.value.owed.value;
    } };

    ghost use Rattle.std.specs.List.{AllByRecursion};
    ghost use Rattle.fiber_body.specs.Shown.{IsFrame, KeepsLog, MayBeCurrent};

    ghost invariant = { λ body. AllByRecursion (IsFrame (option_map arc_value body.content.value.program) body.content.value.birth) body.content.value.frames.items
        × KeepsLog body.content.value.number body.content.value.noted
        × MayBeCurrent (option_map arc_value body.content.value.program) body.content.value.birth body.content.value.current };
}

impl Body {
    /// The body of a fiber of the program that is to run the text, with its current computation. It has
    /// no number yet.
    pub fn new(
        alloc: Global,
        program: &Arc<Program>,
        text: u32,
        value: Value,
        current: CompNo,
    ) -> Result<Body, Memory>
        requires { text < length (arc_value program.now).texts }
        ensures { IfOk result (λ body. IsNew body (Some (arc_value program.now))
            (record { text = text; value = value; current = current }) None) }
    {
        let block = block_of(program, text);
        let program = Some(program.clone()?);
        let birth = Birth {
            text,
            value,
            current,
        };
        Body::unused(alloc, program, birth, None, block)
    }

    /// The body of the clock, which runs no text. Its number is 0.
    pub fn clock(alloc: Global) -> Result<Body, Memory>
        ensures { IfOk result (λ body. IsNew body None
            (record { text = 0; value = 0; current = 0 }) (Some 0)) }
    {
        let birth = Birth {
            text: 0,
            value: 0,
            current: 0,
        };
        Body::unused(alloc, None, birth, Some(0), 0)
    }

    fn unused(
        alloc: Global,
        program: Option<Arc<Program>>,
        birth: Birth,
        number: Option<FiberNo>,
        block: u32,
    ) -> Result<Body, Memory>
        requires { block ≡ block_in (option_map arc_value program) birth.text }
        ensures { IfOk result (λ body. IsNew body (option_map arc_value program) birth number) }
    {
        let mut registers = [0; 16];
        registers[0] = birth.value;
        let content = Content {
            program,
            birth,
            number,
            registers,
            cells: [0; 16],
            steps: STEPS,
            current: birth.current,
            permitted: true,
            standing: Standing::At { block, place: 0 },
            frames: Vec::new(alloc),
            noted: FiberLog::new(alloc, number.unwrap_or(0)),
            owed: Snapshot::of(&Duties::none(alloc)),
        };
        Ok(Body {
            content: Box::new(alloc, content)?,
        })
    }

    /// The text that it runs, a place among the program's texts.
    pub fn text(&self) -> u32
        ensures { result ≡ self.now.birth.text }
    {
        self.content.birth.text
    }

    /// The current computation.
    pub fn current(&self) -> CompNo
        ensures current { result ≡ self.now.context.current }
        ensures may { MayBeCurrent self.now.program self.now.birth result }
    {
        self.content.current
    }

    /// Under what its fiber stands and waits: its current computation, and whether it is told of the
    /// cancellation of that.
    pub fn waits_under(&self) -> pic_machine::Standing
        ensures under { result ≡ under self.now.context }
        ensures may { MayBeCurrent self.now.program self.now.birth result.current }
    {
        pic_machine::Standing {
            current: self.content.current,
            permitted: self.content.permitted,
        }
    }

    /// Lets its fiber stand under this from now on.
    pub fn stand_under(&mut self, under: pic_machine::Standing)
        requires { MayBeCurrent self.old.program self.old.birth under.current }
        ensures { self.new ≡ record self.old { context = standing_under under self.old.context } }
    {
        self.content.current = under.current;
        self.content.permitted = under.permitted;
    }

    /// The visible entries of its fiber so far.
    pub fn entries(&self) -> &FiberLog
        ensures entries { result.now.entries ≡ self.now.noted }
        ensures fiber { IfSome self.now.number (λ fiber. result.now.fiber ≡ fiber) }
    {
        &self.content.noted
    }

    /// The value of the register with this number.
    pub fn register(&self, place: u8) -> Value
        requires { place < 16 }
        ensures { result ≡ slice_index self.now.context.registers place }
    {
        self.content.registers[place as usize]
    }

    /// Puts the value into the register with this number.
    pub fn set_register(&mut self, place: u8, value: Value)
        requires { place < 16 }
        ensures { self.new ≡ record self.old { context = with_register self.old.context place value } }
    {
        self.content.registers[place as usize] = value;
    }

    /// The value of an operand.
    pub fn value(&self, operand: Operand) -> Value
        requires { IsValue operand }
        ensures { result ≡ value self.now.context operand }
    {
        match operand {
            Operand::Reg(register) => self.register(register),
            Operand::Num(value) => value,
        }
    }

    /// How many steps it has left.
    pub fn steps(&self) -> u32
        ensures { result ≡ self.now.context.steps }
    {
        self.content.steps
    }

    /// Where it stands in its text.
    pub fn standing(&self) -> Standing
        ensures { result ≡ self.now.standing }
    {
        self.content.standing
    }

    /// Lets it stand there from now on, with so many steps left.
    pub fn stand(&mut self, standing: Standing, steps: u32)
        ensures { self.new ≡ stood self.old standing steps }
    {
        self.content.standing = standing;
        self.content.steps = steps;
    }

    /// Puts a frame around the block in which it is to stand.
    pub fn push_frame(&mut self, frame: Frame) -> Result<(), Memory>
        requires { IsFrame self.old.program self.old.birth frame }
        ensures pushed { OnOk result (self.new ≡ record self.old { frames = frame ∷ self.old.frames }) }
        ensures kept { OnErr result (self.new ≡ self.old) }
    {
        self.content.frames.push(frame)?;
        Ok(())
    }

    /// The innermost frame, if anything is around the block in which it stands.
    pub fn innermost(&self) -> Option<Frame>
        ensures { result ≡ slice_get self.now.frames 0 }
    {
        self.content.frames.last().copied()
    }

    /// Takes the innermost frame away, if anything is around the block in which it stands.
    pub fn pop_frame(&mut self) -> Option<Frame>
        ensures popped { IsPopped self.old self.new result }
        ensures frame { IfSome result (IsFrame self.new.program self.new.birth) }
    {
        self.content.frames.pop()
    }
}
