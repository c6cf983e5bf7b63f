//! A machine that carries out functions.

ghost use Rattle.std.specs.Prelude.{◌≡◌, ℕ, ◌<◌, ◌≤◌, ◌≢◌, length, IfOk, OnOk, OnErr};
ghost use Rattle.std.specs.Option.{option_copied};
ghost use Rattle.ir_meaning.specs.State.{State};
ghost use Rattle.ir_model.specs.Shapes.{block_of as block_of_number};
ghost use Rattle.ir_meaning.specs.Phases as phase;
ghost use Rattle.ir_meaning.specs.Step.{effect, way, with_given, after_effect, after_way, entered, instr_at};
ghost use Rattle.ir_meaning.specs.Step.{carried_out, step as stepped};
ghost use Rattle.ir_meaning.specs.Effects.{Ends};
ghost use Rattle.ir_meaning.specs.Run.{ArgsFit, start as start_of, after};
ghost use Rattle.ir_machine.specs.Runnable.{IsRunnable, IsSafe, StandsAtAlloca};
ghost use Rattle.ir_machine.specs.Zeros.{zeros};
ghost use Rattle.ir_machine.specs.Narrow.{IsNarrowOp, IsAlloca, HasPlace};
ghost use Rattle.ir_machine.specs.Stands.{Stands, register};

use crate::effect::{Done, Way, effect_of};
use crate::lookup::{block_of, instr_of, leading_phis, positions};
use crate::operand::held;
use crate::phase::Phase;
use crate::phis::{carry_out_phis, set};
use crate::start::{set_args, unset};
use crate::ways::way_of;
use ir_meaning::{Choice, Value};
use ir_memory::Blocks;
use ir_model::{Block, Function, Instr, Op};
use scev_base::{BlockId, ValueId};
use std::alloc::AllocError;
use std::marker::Model;

/// A machine that carries out a function: where it stands, what its registers and its memory hold, and how
/// far the run is. It keeps the number of its events, and neither their list nor a trail.
#[derive(Drop)]
pub struct Machine {
    block: BlockId,
    place: usize,
    previous: Option<BlockId>,
    registers: Vec<Option<Value>>,
    /// Where each block stands in the text, by its number, in the function that the machine was started with.
    positions: Vec<usize>,
    /// Room for what the phis of one branch give, by register.
    room: Vec<Option<Value>>,
    memory: Blocks,
    events: u64,
    phase: Phase,
}

impl Model for Machine {
    ghost use Rattle.std.specs.Prelude.{◌≡◌, length};
    ghost use Rattle.std.specs.Option.{option_map};
    ghost use Rattle.ir_machine.specs.Stands.{Seen};

    ghost Value = { Seen };

    ghost view = { λ m. record {
      block = m.block.0;
      place = m.place;
      previous = option_map (λ b. b.0) m.previous;
      registers = m.registers.items;
      memory = m.memory;
      events = m.events;
      phase = m.phase;
    } };

    ghost invariant = { λ m. length m.room.items ≡ length m.registers.items };
}

impl Machine {
    /// The machine before the first instruction of a function, with the arguments in the registers of the
    /// parameters and with the memory. No run from there is stuck. It makes room for two values for each register
    /// of the function, and fails only where there is no memory for it.
    pub fn start(f: &Function, args: Vec<Value>, blocks: Blocks) -> Result<Machine, AllocError>
        requires runnable { IsRunnable f.now }
        requires fit { ArgsFit blocks f.now.params args.items }
        ensures safe { IfOk result (IsSafe f.now) }
        ensures room { IfOk result (λ m. length m.registers ≡ length f.now.values) }
        ensures exact { IfOk result (λ m. Stands m (start_of f.now args.items blocks)) }
    {
        blocks.bytes_fit();
        let alloc = *args.allocator();
        let mut registers = unset(alloc, f.values.len())?;
        let room = unset(alloc, f.values.len())?;
        let positions = positions(alloc, f)?;
        set_args(&mut registers, f.params.as_slice(), &args);
        Ok(Machine {
            block: f.entry(),
            place: 0,
            previous: None,
            registers,
            positions,
            room,
            memory: blocks,
            events: 0,
            phase: Phase::Running,
        })
    }

    /// How far the run is.
    pub fn phase(&self) -> &Phase
        ensures { result.now ≡ self.now.phase }
    {
        &self.phase
    }

    /// How many calls the outside has seen. It stays at 2^64 - 1 once it is there.
    pub fn events(&self) -> u64
        ensures { result ≡ self.now.events }
    {
        self.events
    }

    /// What a register holds. It is None where it isn't set, or there is no such register.
    pub fn register(&self, v: ValueId) -> Option<Value>
        ensures { result ≡ register self.now.registers v.0 }
    {
        held(&self.registers, v)
    }

    /// One step, with what it may choose: the instruction is carried out, and with a branch all phis of the
    /// entered block. A machine that has ended stays as it is.
    ///
    /// The error comes only where an `alloca` finds no memory for its block, and then nothing changes.
    pub fn step(&mut self, f: &Function, choice: Choice) -> Result<(), AllocError>
        requires runnable { IsRunnable f.now }
        requires safe { IsSafe f.now self.old }
        requires room { length self.old.registers ≡ length f.now.values }
        ensures safe { IsSafe f.now self.new }
        ensures room { length self.new.registers ≡ length f.now.values }
        ensures exact { OnOk result ((s : State) → Stands self.old s → Stands self.new (stepped f.now choice s)) }
        ensures err { OnErr result (self.new ≡ self.old) }
        ensures want { OnErr result ((s : State) → Stands self.old s → StandsAtAlloca f.now s) }
    {
        if self.phase.is_running() {
            let block = block_of(f, &self.positions, self.block);
            let _ = self.carry_out(f, block, choice)?;
        }
        Ok(())
    }

    /// Steps in which the number 0 is chosen, until the machine has ended or so many are made. It answers how many are
    /// made.
    ///
    /// The error comes only where an `alloca` finds no memory for its block; the machine then stands after the steps
    /// made before.
    pub fn run(&mut self, f: &Function, steps: u64) -> Result<u64, AllocError>
        requires runnable { IsRunnable f.now }
        requires safe { IsSafe f.now self.old }
        requires room { length self.old.registers ≡ length f.now.values }
        ensures safe { IsSafe f.now self.new }
        ensures room { length self.new.registers ≡ length f.now.values }
        ensures made { IfOk result (λ made. made ≤ steps) }
        ensures exact { IfOk result (λ made. (s : State) → Stands self.old s
            → Stands self.new (after f.now s (zeros made))) }
        ensures ended { IfOk result (λ made. made < steps → self.new.phase ≢ Phase.Running) }
        ensures running { IfOk result (λ made. (s : State) → Stands self.old s
            → (k : ℕ) → k < made → (after f.now s (zeros k)).phase ≡ phase.Running) }
        ensures err { OnErr result ((made : ℕ) × (made < steps) × ((s : State) → Stands self.old s
            → Stands self.new (after f.now s (zeros made)) × StandsAtAlloca f.now (after f.now s (zeros made)))) }
    {
        let mut block = block_of(f, &self.positions, self.block);
        for made in 0..steps {
            if !self.phase.is_running() {
                return Ok(made);
            }
            block = self.carry_out(f, block, Choice::Number(0))?;
        }
        Ok(steps)
    }

    /// Carries out the instruction at which the machine stands in the block. It answers the block in which
    /// the machine stands then, unless it has ended.
    fn carry_out<'f>(
        &mut self,
        f: &'f Function,
        block: Option<&'f Block>,
        choice: Choice,
    ) -> Result<Option<&'f Block>, AllocError>
        requires runnable { IsRunnable f.now }
        requires running { self.old.phase ≡ Phase.Running }
        requires safe { IsSafe f.now self.old }
        requires room { length self.old.registers ≡ length f.now.values }
        requires here { option_copied block ≡ block_of_number f.now self.old.block }
        ensures safe { IsSafe f.now self.new }
        ensures room { length self.new.registers ≡ length f.now.values }
        ensures here { IfOk result (λ block. self.new.phase ≡ Phase.Running
            → option_copied block ≡ block_of_number f.now self.new.block) }
        ensures exact { OnOk result ((s : State) → Stands self.old s
            → Stands self.new (carried_out f.now choice s (instr_at f.now s))) }
        ensures err { OnErr result (self.new ≡ self.old) }
        ensures want { OnErr result ((s : State) → Stands self.old s → StandsAtAlloca f.now s) }
    {
        let place = self.place;
        let Some(block) = block else { unreachable!() };
        let Some(instr) = instr_of(block, place) else {
            unreachable!()
        };
        if instr.op.is_terminator() {
            Ok(self.follow(f, choice.number(), &instr.op))
        } else {
            self.act(choice, instr)?;
            Ok(Some(block))
        }
    }

    /// Carries out a terminator that isn't stuck. It answers the block in which the machine stands then, unless it
    /// has ended.
    fn follow<'f>(&mut self, f: &'f Function, n: u64, op: &Op) -> Option<&'f Block>
        requires runnable { IsRunnable f.now }
        requires narrow { IsNarrowOp op.now }
        requires room { length self.old.registers ≡ length f.now.values }
        requires goes { (s : State) × Stands self.old s
            × ((after_way f.now n s (way s.registers n op.now)).phase ≢ phase.Stuck) }
        ensures room { length self.new.registers ≡ length f.now.values }
        ensures here { self.new.phase ≡ Phase.Running
            → option_copied result ≡ block_of_number f.now self.new.block }
        ensures exact { (s : State) → Stands self.old s
            → Stands self.new (after_way f.now n s (way s.registers n op.now)) }
    {
        match way_of(&self.registers, n, op) {
            Way::Enters(to) => self.enter(f, n, to),
            Way::Returns(answer) => self.end(Phase::Returned(answer)),
            Way::Undefined => self.end(Phase::Undefined),
            Way::Stuck => unreachable!(),
        }
    }

    /// Carries out an instruction that is no terminator, and isn't stuck. It stays in its block.
    fn act(&mut self, choice: Choice, instr: &Instr) -> Result<(), AllocError>
        requires narrow { IsNarrowOp instr.now.op }
        requires place { HasPlace (length self.old.registers) instr.now.result }
        requires within { self.old.place < usize.MAX }
        requires goes { (s : State) → Stands self.old s → effect choice s instr.now.op ≢ Ends phase.Stuck }
        ensures room { length self.new.registers ≡ length self.old.registers }
        ensures block { self.new.block ≡ self.old.block }
        ensures exact { OnOk result ((s : State) → Stands self.old s
            → Stands self.new (after_effect instr.now.result s (effect choice s instr.now.op))) }
        ensures err { OnErr result (self.new ≡ self.old) }
        ensures want { OnErr result (IsAlloca instr.now.op) }
    {
        match effect_of(
            &self.registers,
            &mut self.memory,
            &mut self.events,
            choice,
            &instr.op,
        )? {
            Done::Goes(x) => {
                self.give(instr.result, x);
                self.place += 1;
            }
            Done::Ends(how) => self.phase = how,
            Done::Stuck => unreachable!(),
        }
        Ok(())
    }

    /// Sets the register of a result to what is given, where there are both.
    fn give(&mut self, target: Option<ValueId>, x: Option<Value>)
        requires { HasPlace (length self.old.registers) target }
        ensures room { length self.new.registers ≡ length self.old.registers }
        ensures registers { register self.new.registers ≡ with_given (register self.old.registers) target x }
        ensures others { self.new ≡ record self.old { registers = self.new.registers } }
    {
        if let Some(x) = x {
            set(&mut self.registers, target, x);
        }
    }

    /// Enters a block and carries out its phis, each of which has a value. It answers the block.
    fn enter<'f>(&mut self, f: &'f Function, n: u64, to: BlockId) -> Option<&'f Block>
        requires runnable { IsRunnable f.now }
        requires room { length self.old.registers ≡ length f.now.values }
        requires goes { (s : State) × Stands self.old s
            × ((entered n to.0 s (block_of_number f.now to.0)).phase ≢ phase.Stuck) }
        ensures room { length self.new.registers ≡ length f.now.values }
        ensures here { self.new.phase ≡ Phase.Running
            → option_copied result ≡ block_of_number f.now self.new.block }
        ensures exact { (s : State) → Stands self.old s
            → Stands self.new (entered n to.0 s (block_of_number f.now to.0)) }
    {
        let Some(block) = block_of(f, &self.positions, to) else {
            unreachable!()
        };
        let phis = leading_phis(block.instrs.as_slice());
        if !carry_out_phis(&mut self.registers, &mut self.room, n, self.block, phis) {
            unreachable!()
        }
        self.previous = Some(self.block);
        self.block = to;
        self.place = phis.len();
        Some(block)
    }

    /// Ends the run. It answers None, since the machine goes on in no block.
    fn end<'f>(&mut self, how: Phase) -> Option<&'f Block>
        ensures { self.new ≡ record self.old { phase = how } }
    {
        self.phase = how;
        None
    }
}
