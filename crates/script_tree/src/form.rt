//! The forms of lines, and the words that tell them apart.
ghost use Rattle.std.specs.Prelude.{◌≡◌};
ghost use Rattle.script_tree.specs.Forms.{keyword};

/// A declaration.
#[derive(Clone, Copy)]
pub enum DeclForm {
    Trigger,
    Comp,
    Mutex,
    Cond,
    Sem,
    Latch,
    Ivar,
    Stream,
}

/// A statement on registers, on the storage, or on the run of its own text.
#[derive(Clone, Copy)]
pub enum BasicForm {
    Set,
    Add,
    Sub,
    Mul,
    Words,
    Len,
    Put,
    Get,
    Say,
    Raise,
    Break,
    Yield,
    Check,
}

/// A statement on triggers, computations and the clock.
#[derive(Clone, Copy)]
pub enum CompForm {
    Signal,
    Await,
    Attach,
    Detach,
    Return,
    Cancel,
    Peek,
    Wait,
    After,
}

/// A statement on declared objects and the input.
#[derive(Clone, Copy)]
pub enum ObjectForm {
    Lock,
    TryLock,
    Unlock,
    WaitCond,
    Notify,
    Broadcast,
    Acquire,
    TryAcquire,
    Release,
    Decr,
    Incr,
    AwaitLatch,
    Fill,
    Poison,
    Read,
    Push,
    Tap,
    Next,
    Line,
}

/// A statement that starts fibers or ends their scope.
#[derive(Clone, Copy)]
pub enum FiberForm {
    Spawn,
    Fork,
    Promise,
    Terminate,
    Error,
}

/// A block of statements, or a select.
#[derive(Clone, Copy)]
pub enum BlockForm {
    If,
    Loop,
    Try,
    Forbid,
    Permit,
    Under,
    Link,
    Protect,
    Bundle,
    Flock,
    Select,
}

/// An event, told by the word behind `on`.
#[derive(Clone, Copy)]
pub enum EventForm {
    Ivar,
    Latch,
    Stream,
    Done,
    Always,
}

/// A group of events.
#[derive(Clone, Copy)]
pub enum GroupForm {
    Choose,
    Wrap,
    Guard,
}

/// A line form: which words a line has behind the one that tells it.
#[derive(Clone, Copy)]
pub enum Form {
    Declare(DeclForm),
    Fiber,
    Main,
    End,
    Else,
    Catch,
    Basic(BasicForm),
    Comp(CompForm),
    Object(ObjectForm),
    Fork(FiberForm),
    Block(BlockForm),
    Event(EventForm),
    Group(GroupForm),
}

/// The forms that the first word of a line tells apart.
pub const FORMS: [Form; 73] = [
    Form::Declare(DeclForm::Trigger),
    Form::Declare(DeclForm::Comp),
    Form::Declare(DeclForm::Mutex),
    Form::Declare(DeclForm::Cond),
    Form::Declare(DeclForm::Sem),
    Form::Declare(DeclForm::Latch),
    Form::Declare(DeclForm::Ivar),
    Form::Declare(DeclForm::Stream),
    Form::Fiber,
    Form::Main,
    Form::End,
    Form::Else,
    Form::Catch,
    Form::Basic(BasicForm::Set),
    Form::Basic(BasicForm::Add),
    Form::Basic(BasicForm::Sub),
    Form::Basic(BasicForm::Mul),
    Form::Basic(BasicForm::Words),
    Form::Basic(BasicForm::Len),
    Form::Basic(BasicForm::Put),
    Form::Basic(BasicForm::Get),
    Form::Basic(BasicForm::Say),
    Form::Basic(BasicForm::Raise),
    Form::Basic(BasicForm::Break),
    Form::Basic(BasicForm::Yield),
    Form::Basic(BasicForm::Check),
    Form::Comp(CompForm::Signal),
    Form::Comp(CompForm::Await),
    Form::Comp(CompForm::Attach),
    Form::Comp(CompForm::Detach),
    Form::Comp(CompForm::Return),
    Form::Comp(CompForm::Cancel),
    Form::Comp(CompForm::Peek),
    Form::Comp(CompForm::Wait),
    Form::Comp(CompForm::After),
    Form::Object(ObjectForm::Lock),
    Form::Object(ObjectForm::TryLock),
    Form::Object(ObjectForm::Unlock),
    Form::Object(ObjectForm::WaitCond),
    Form::Object(ObjectForm::Notify),
    Form::Object(ObjectForm::Broadcast),
    Form::Object(ObjectForm::Acquire),
    Form::Object(ObjectForm::TryAcquire),
    Form::Object(ObjectForm::Release),
    Form::Object(ObjectForm::Decr),
    Form::Object(ObjectForm::Incr),
    Form::Object(ObjectForm::AwaitLatch),
    Form::Object(ObjectForm::Fill),
    Form::Object(ObjectForm::Poison),
    Form::Object(ObjectForm::Read),
    Form::Object(ObjectForm::Push),
    Form::Object(ObjectForm::Tap),
    Form::Object(ObjectForm::Next),
    Form::Object(ObjectForm::Line),
    Form::Fork(FiberForm::Spawn),
    Form::Fork(FiberForm::Fork),
    Form::Fork(FiberForm::Promise),
    Form::Fork(FiberForm::Terminate),
    Form::Fork(FiberForm::Error),
    Form::Block(BlockForm::If),
    Form::Block(BlockForm::Loop),
    Form::Block(BlockForm::Try),
    Form::Block(BlockForm::Forbid),
    Form::Block(BlockForm::Permit),
    Form::Block(BlockForm::Under),
    Form::Block(BlockForm::Link),
    Form::Block(BlockForm::Protect),
    Form::Block(BlockForm::Bundle),
    Form::Block(BlockForm::Flock),
    Form::Block(BlockForm::Select),
    Form::Group(GroupForm::Choose),
    Form::Group(GroupForm::Wrap),
    Form::Group(GroupForm::Guard),
];

/// The forms that the word behind `on` tells apart.
pub const EVENTS: [Form; 5] = [
    Form::Event(EventForm::Ivar),
    Form::Event(EventForm::Latch),
    Form::Event(EventForm::Stream),
    Form::Event(EventForm::Done),
    Form::Event(EventForm::Always),
];

impl DeclForm {
    ghost use Rattle.script_tree.specs.Forms.{decl_form_keyword};

    fn keyword(self) -> &'static str
        ensures { result.now ≡ decl_form_keyword self }
    {
        match self {
            DeclForm::Trigger => "trigger",
            DeclForm::Comp => "comp",
            DeclForm::Mutex => "mutex",
            DeclForm::Cond => "cond",
            DeclForm::Sem => "sem",
            DeclForm::Latch => "latch",
            DeclForm::Ivar => "ivar",
            DeclForm::Stream => "stream",
        }
    }
}

impl BasicForm {
    ghost use Rattle.script_tree.specs.Forms.{basic_form_keyword};

    fn keyword(self) -> &'static str
        ensures { result.now ≡ basic_form_keyword self }
    {
        match self {
            BasicForm::Set => "set",
            BasicForm::Add => "add",
            BasicForm::Sub => "sub",
            BasicForm::Mul => "mul",
            BasicForm::Words => "words",
            BasicForm::Len => "len",
            BasicForm::Put => "put",
            BasicForm::Get => "get",
            BasicForm::Say => "say",
            BasicForm::Raise => "raise",
            BasicForm::Break => "break",
            BasicForm::Yield => "yield",
            BasicForm::Check => "check",
        }
    }
}

impl CompForm {
    ghost use Rattle.script_tree.specs.Forms.{comp_form_keyword};

    fn keyword(self) -> &'static str
        ensures { result.now ≡ comp_form_keyword self }
    {
        match self {
            CompForm::Signal => "signal",
            CompForm::Await => "await",
            CompForm::Attach => "attach",
            CompForm::Detach => "detach",
            CompForm::Return => "return",
            CompForm::Cancel => "cancel",
            CompForm::Peek => "peek",
            CompForm::Wait => "wait",
            CompForm::After => "after",
        }
    }
}

impl ObjectForm {
    ghost use Rattle.script_tree.specs.Forms.{object_form_keyword};

    fn keyword(self) -> &'static str
        ensures { result.now ≡ object_form_keyword self }
    {
        match self {
            ObjectForm::Lock => "lock",
            ObjectForm::TryLock => "try_lock",
            ObjectForm::Unlock => "unlock",
            ObjectForm::WaitCond => "wait_cond",
            ObjectForm::Notify => "notify",
            ObjectForm::Broadcast => "broadcast",
            ObjectForm::Acquire => "acquire",
            ObjectForm::TryAcquire => "try_acquire",
            ObjectForm::Release => "release",
            ObjectForm::Decr => "decr",
            ObjectForm::Incr => "incr",
            ObjectForm::AwaitLatch => "await_latch",
            ObjectForm::Fill => "fill",
            ObjectForm::Poison => "poison",
            ObjectForm::Read => "read",
            ObjectForm::Push => "push",
            ObjectForm::Tap => "tap",
            ObjectForm::Next => "next",
            ObjectForm::Line => "line",
        }
    }
}

impl FiberForm {
    ghost use Rattle.script_tree.specs.Forms.{fiber_form_keyword};

    fn keyword(self) -> &'static str
        ensures { result.now ≡ fiber_form_keyword self }
    {
        match self {
            FiberForm::Spawn => "spawn",
            FiberForm::Fork => "fork",
            FiberForm::Promise => "promise",
            FiberForm::Terminate => "terminate",
            FiberForm::Error => "error",
        }
    }
}

impl BlockForm {
    ghost use Rattle.script_tree.specs.Forms.{block_form_keyword};

    fn keyword(self) -> &'static str
        ensures { result.now ≡ block_form_keyword self }
    {
        match self {
            BlockForm::If => "if",
            BlockForm::Loop => "loop",
            BlockForm::Try => "try",
            BlockForm::Forbid => "forbid",
            BlockForm::Permit => "permit",
            BlockForm::Under => "under",
            BlockForm::Link => "link",
            BlockForm::Protect => "protect",
            BlockForm::Bundle => "bundle",
            BlockForm::Flock => "flock",
            BlockForm::Select => "select",
        }
    }
}

impl EventForm {
    ghost use Rattle.script_tree.specs.Forms.{event_form_keyword};

    fn keyword(self) -> &'static str
        ensures { result.now ≡ event_form_keyword self }
    {
        match self {
            EventForm::Ivar => "ivar",
            EventForm::Latch => "latch",
            EventForm::Stream => "stream",
            EventForm::Done => "done",
            EventForm::Always => "always",
        }
    }
}

impl GroupForm {
    ghost use Rattle.script_tree.specs.Forms.{group_form_keyword};

    fn keyword(self) -> &'static str
        ensures { result.now ≡ group_form_keyword self }
    {
        match self {
            GroupForm::Choose => "choose",
            GroupForm::Wrap => "wrap",
            GroupForm::Guard => "guard",
        }
    }
}

impl Form {
    /// The word that tells the form: the first of its line, of an event the one behind `on`.
    #[tactic(auto, unfolding(crate::specs::Forms::keyword))]
    pub fn keyword(self) -> &'static str
        ensures { result.now ≡ keyword self }
    {
        match self {
            Form::Declare(form) => form.keyword(),
            Form::Fiber => "fiber",
            Form::Main => "main",
            Form::End => "end",
            Form::Else => "else",
            Form::Catch => "catch",
            Form::Basic(form) => form.keyword(),
            Form::Comp(form) => form.keyword(),
            Form::Object(form) => form.keyword(),
            Form::Fork(form) => form.keyword(),
            Form::Block(form) => form.keyword(),
            Form::Event(form) => form.keyword(),
            Form::Group(form) => form.keyword(),
        }
    }
}
