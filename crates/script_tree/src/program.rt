//! A script that was read: declared things, texts, blocks of statements and events, each named by
//! its place.
ghost use Rattle.std.specs.Prelude.{◌≡◌};

use pic_base::Value;
use std::marker::Model;
use std::str;

/// What a declaration makes. A semaphore and a latch carry the count that they begin with.
#[derive(Clone, Copy)]
pub enum Kind {
    /// A trigger: it is signalled once, and awaited.
    Trigger,
    /// A computation: it is returned or cancelled once, and signals its triggers then.
    Comp,
    /// A mutex: at most one fiber holds it.
    Mutex,
    /// A condition: it is awaited with a mutex.
    Cond,
    /// A semaphore, with its first number of permits.
    Sem(u32),
    /// A latch, with its first count: it opens at 0.
    Latch(u32),
    /// An incremental variable: it is filled or poisoned once, and read.
    Ivar,
    /// A stream: values are pushed, and read in their order until it is poisoned.
    Stream,
}

/// The name of a declaration or a text, seen as its bytes, which are ASCII.
#[derive(Drop)]
pub struct Name {
    pub bytes: Vec<u8>,
}

impl Model for Name {
    ghost use Rattle.std.specs.Prelude.{List, ℕ, IsAscii};

    ghost Value = { List ℕ };

    ghost view = { λ n. n.bytes.items };

    ghost invariant = { λ n. IsAscii n.bytes.items };
}

impl Name {
    /// The name as text.
    pub fn as_str(&self) -> &str
        ensures { result.now ≡ self.now }
    {
        match str::from_utf8(&self.bytes) {
            Ok(text) => text,
            Err(_) => unreachable!("a name is ASCII"),
        }
    }
}

/// A declared thing.
#[derive(Drop)]
pub struct Decl {
    pub name: Name,
    pub kind: Kind,
}

/// The text of a fiber: its statements are those of the block with this place.
#[derive(Drop)]
pub struct Text {
    pub name: Name,
    pub block: u32,
}

/// A number, or the register that holds one.
#[derive(Clone, Copy)]
pub enum Operand {
    /// The value of the register, `r0` to `r15`.
    Reg(u8),
    /// The number.
    Num(u32),
}

/// A computation: the root, a declared one by its place, or the one in a promise register.
#[derive(Clone, Copy)]
pub enum CompRef {
    /// `root`, the computation of main.
    Root,
    /// A declared one, by its place in `decls`.
    Named(u32),
    /// The one of the promise register, `p0` to `p7`.
    Promise(u8),
}

/// How two numbers are compared.
#[derive(Clone, Copy)]
pub enum Test {
    /// Equal.
    Eq,
    /// Not equal.
    Ne,
    /// Less.
    Lt,
    /// Less or equal.
    Le,
    /// Greater.
    Gt,
    /// Greater or equal.
    Ge,
}

/// Places of events, in their order, seen as that list.
#[derive(Drop)]
pub struct Places {
    pub items: Vec<u32>,
}

impl Model for Places {
    ghost use Rattle.std.specs.Prelude.{List, ℕ};

    ghost Value = { List ℕ };

    ghost view = { λ p. p.items.items };
}

/// A statement: one variant for each line form, with the form's parts in their order.
///
/// Declared things and texts are named by their places in the program, registers and keys by
/// numbers up to 15, promise registers by numbers up to 7. Inner blocks and events are places too.
/// Each variant says what it is for; `docs/LANGUAGE.md` says which are run so far.
#[derive(Drop)]
pub enum Stmt {
    /// The register gets the value.
    Set(u8, Operand),
    /// The value is added to the register.
    Add(u8, Operand),
    /// The value is taken from the register.
    Sub(u8, Operand),
    /// The register is multiplied by the value.
    Mul(u8, Operand),
    /// The register gets how many words the input's line with this number has, counted from 1; 0 where
    /// there is no such line.
    Words(u8, Operand),
    /// The register gets how many bytes that line has, without its end; 0 where there is no such line.
    Len(u8, Operand),
    /// The value is put under the key into the fiber's storage.
    Put(u8, Operand),
    /// The register gets what stands under the key in the fiber's storage, 0 at first.
    Get(u8, u8),
    /// The value is said, for the report.
    Say(Operand),
    /// The value is raised, as the code of an exception.
    Raise(Operand),
    /// The innermost `loop` ends.
    Break,
    /// Other fibers may run (Picos: `Fiber.yield`).
    Yield,
    /// Raises here where the fiber was cancelled (Picos: `Fiber.check`).
    Check,
    /// The trigger is signalled (Picos: `Trigger.signal`).
    Signal(u32),
    /// The trigger is awaited (Picos: `Trigger.await`).
    Await(u32),
    /// The trigger is attached, if the computation runs; the register tells whether it was.
    Attach(u8, CompRef, u32),
    /// The trigger is detached from the computation.
    Detach(CompRef, u32),
    /// The computation is completed with the value; the register tells whether it was here.
    Return(u8, CompRef, Operand),
    /// The computation is cancelled with the code; the register tells whether it was here.
    Cancel(u8, CompRef, Operand),
    /// The registers get how the computation stands, and its value or code.
    Peek(u8, u8, CompRef),
    /// The end of the computation is awaited; the register gets what it returned, and its code is
    /// raised where it was cancelled.
    Wait(u8, CompRef),
    /// Cancels the computation after a time, the first value, with a code, the last one.
    After(Operand, CompRef, Operand),
    /// The mutex is locked, once it is free.
    Lock(u32),
    /// The mutex is locked if it is free; the register tells whether it was.
    TryLock(u8, u32),
    /// The mutex is unlocked.
    Unlock(u32),
    /// The condition is awaited, and the mutex, the second place, is unlocked meanwhile.
    WaitCond(u32, u32),
    /// One that awaits the condition goes on.
    Notify(u32),
    /// All that await the condition go on.
    Broadcast(u32),
    /// A permit of the semaphore is taken, once there is one.
    Acquire(u32),
    /// A permit of the semaphore is taken if there is one; the register tells whether there was.
    TryAcquire(u8, u32),
    /// A permit is given to the semaphore.
    Release(u32),
    /// The latch's count goes down by one (Picos: `Latch.decr`).
    Decr(u32),
    /// The latch's count goes up by one, above 0; the register tells whether it did.
    Incr(u8, u32),
    /// The latch is awaited: it opens at 0 (Picos: `Latch.await`).
    AwaitLatch(u32),
    /// The ivar gets the value; the register tells whether it was here.
    Fill(u8, u32, Operand),
    /// The ivar or stream is poisoned with the value; the register tells whether it was here.
    Poison(u8, u32, Operand),
    /// The ivar is awaited; the register gets its value.
    Read(u8, u32),
    /// The value is pushed to the stream.
    Push(u32, Operand),
    /// The register gets a cursor: how many values were pushed so far (Picos: `Stream.tap`).
    Tap(u8, u32),
    /// The value at the cursor in the second register is awaited; the first register gets it, and the
    /// second the cursor behind it (Picos: `Stream.read`).
    Next(u8, u8, u32),
    /// The register gets the number of the next line of the input that no fiber has taken yet, or 0.
    Line(u8),
    /// A fiber begins to run the text, and is handed the value (Picos: `Fiber.spawn`).
    Spawn(u32, Operand),
    /// The same, in what joins fibers around it (Picos: `fork`).
    Fork(u32, Operand),
    /// The same, and the promise register gets the computation of the fiber
    /// (Picos: `fork_as_promise`).
    Promise(u8, u32, Operand),
    /// What joins fibers around it is told to end (Picos: `terminate`).
    Terminate,
    /// What joins fibers around it is told of an error, the value (Picos: `error`).
    Error(Operand),
    /// `then` runs where the test holds, else `other`, where there is one: two blocks.
    If {
        left: Operand,
        test: Test,
        right: Operand,
        then: u32,
        other: Option<u32>,
    },
    /// The block runs until a `break`.
    Loop(u32),
    /// `body` runs; where it raises, the register gets what was raised, and `handler` runs.
    Try {
        body: u32,
        register: u8,
        handler: u32,
    },
    /// The block runs, where the fiber takes no cancellation (Picos: `Fiber.forbid`).
    Forbid(u32),
    /// The block runs, where the fiber takes cancellation (Picos: `Fiber.permit`).
    Permit(u32),
    /// The block runs with the computation as the current one.
    Under(CompRef, u32),
    /// The block runs, while the second computation is cancelled with the first
    /// (Picos: `Computation.attach_canceler`).
    Link(CompRef, CompRef, u32),
    /// The block, the second place, runs with the mutex locked (Picos: `Mutex.protect`).
    Protect(u32, u32),
    /// The block runs, and then its fibers are awaited (Picos: `Bundle.join_after`).
    Bundle(u32),
    /// The same, by Picos's `Flock.join_after`.
    Flock(u32),
    /// The first of the events is awaited: `number` and `value` are the registers that get which one
    /// it was, and its value.
    Select {
        number: u8,
        value: u8,
        events: Places,
    },
}

/// An event, or a group of events with what is done to each.
#[derive(Drop)]
pub enum EventTree {
    /// The ivar is filled or poisoned.
    OnIvar(u32),
    /// The latch is open.
    OnLatch(u32),
    /// The stream has a value at the cursor in the register.
    OnStream(u32, u8),
    /// The computation was returned or cancelled.
    OnDone(CompRef),
    /// Comes at once, with the value (Picos: `Event.always`).
    OnAlways(Operand),
    /// Any of these (Picos: `Event.choose`).
    Choose(Places),
    /// Any of these, with the value added to what it gives (Picos: `Event.wrap`).
    Wrap(Operand, Places),
    /// Any of these, where the test holds (Picos: `Event.guard`).
    Guard(Operand, Test, Operand, Places),
}

/// Statements in their order, seen as that list.
#[derive(Drop)]
pub struct Block {
    pub stmts: Vec<Stmt>,
}

impl Model for Block {
    ghost use Rattle.std.specs.Prelude.{List};
    ghost use Rattle.script_tree.specs.declared.program.Stmt.{Stmt};

    ghost Value = { List Stmt };

    ghost view = { λ b. b.stmts.items };
}

/// A script that was read: each program is what some text is, and well-formed. Its numbers are in
/// their ranges, and each place is that of a thing of the sort that is wanted there. Inner blocks
/// and the members of groups stand behind what holds them, a `break` stands in a loop, names are
/// apart, and no limit is passed, also on how deep blocks stand. The main text is the last of
/// `texts`.
#[derive(Drop)]
pub struct Program {
    pub decls: Vec<Decl>,
    pub texts: Vec<Text>,
    pub blocks: Vec<Block>,
    pub events: Vec<EventTree>,
}

impl Model for Program {
    ghost use Rattle.script_tree.specs.Tree.{Tree};

    ghost Value = { Tree };

    ghost use Rattle.script_tree.specs.WellFormed.{IsProgram};

    ghost view = { λ p. record { decls = p.decls.items; texts = p.texts.items; blocks = p.blocks.items; events = p.events.items } };

    ghost invariant = { λ p. IsProgram (record { decls = p.decls.items; texts = p.texts.items; blocks = p.blocks.items; events = p.events.items }) };
}

/// The greatest number that a script computes with.
pub fn most(_program: &Program) -> Value
    ensures { result ≡ 4294967295 }
{
    Value::MAX
}
