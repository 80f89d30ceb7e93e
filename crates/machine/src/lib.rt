//! The abstract machine of paper 01: the state of a run and the answers to those who drive it.
#![tactic(auto)]

ghost use Rattle.std.specs.Prelude.{◌≡◌};
ghost use Rattle.machine.specs.States.{new_frame, register, named, with_register, with_name, refers, is_vector, is_promise};
ghost use Rattle.machine.specs.Frames.{read_of, read_at, written_of, is_it, holds};

/// What a register or a name holds: nothing, an integer, or the place of a vector or a promise.
#[derive(Clone, Copy, PartialEq, Eq)]
pub enum Value {
    Empty,
    Integer(i64),
    Vector(u8),
    Promise(u8),
}

/// A register or a name of a frame.
#[derive(Clone, Copy, PartialEq, Eq)]
pub struct Place {
    pub value: Value,
}

/// The frame of a live call: the numbers of the version entered, its registers and its names.
#[derive(Clone, Copy)]
pub struct Frame {
    pub function: u8,
    pub version: u8,
    pub registers: [Place; 16],
    pub names: [Place; 8],
}

/// What opened an activation: a call, or the force of the promise at a place.
#[derive(Clone, Copy)]
pub enum Opener {
    Call,
    Force(u8),
}

/// A block at work in a frame; `d` is the register, in the frame of the activation below, that waits for its result.
#[derive(Clone, Copy)]
pub struct Activation {
    pub opener: Opener,
    pub d: u8,
    pub frame: u8,
    pub block: u8,
    pub next: u8,
}

/// A vector: the first `length` of the items.
#[derive(Clone, Copy)]
pub struct Vector {
    pub length: u8,
    pub items: [i64; 16],
}

/// What the force of a promise has left.
#[derive(Clone, Copy)]
pub enum Cache {
    Unforced,
    Forced(i64),
}

/// A block delayed in a frame.
#[derive(Clone, Copy)]
pub struct Promise {
    pub frame: u8,
    pub block: u8,
    pub cache: Cache,
}

/// How a run ended: DONE with an integer, DONE with a vector of that length, or a stop.
#[derive(Clone, Copy)]
pub enum End {
    Integer(i64),
    Vector(u8),
    Undef,
    Deep,
    Vectors,
    Promises,
}

/// Whether a run goes on.
#[derive(Clone, Copy)]
pub enum Status {
    Running,
    Ended(End),
}

/// The state of a run: the frames of its live calls and its live activations, oldest first, what they refer to, and its end.
/// `result` holds the items of a vector that the run ended with. What lies above a count means nothing.
#[derive(Drop)]
pub struct State {
    pub frames: [Frame; 32],
    pub calls: u8,
    pub activations: [Activation; 32],
    pub depth: u8,
    pub vectors: [Vector; 64],
    pub promises: [Promise; 64],
    pub result: [i64; 16],
    pub status: Status,
}

/// What a single step says.
#[derive(Clone, Copy)]
pub enum Said {
    GoesOn,
    Ended(End),
    Stuck,
}

/// A single step: the state after it and what it says.
#[derive(Drop)]
pub struct Stepped {
    pub state: State,
    pub said: Said,
}

/// What a budget gives: a refusal's number and offset, STEPS, the end of the run, or stuck.
#[derive(Drop)]
pub enum Answer {
    Refused(u8, u16),
    Steps,
    Ended(End),
    Stuck,
}

/// A budget: the state after it, its answer and the steps taken.
#[derive(Drop)]
pub struct Ran {
    pub state: State,
    pub answer: Answer,
    pub steps: u32,
}

/// The refusal of a call that begins, runs, changes or watches: the number of the question that says no, and the offset.
#[derive(Clone, Copy, Debug, PartialEq, Eq)]
pub struct Denial {
    pub question: u8,
    pub at: u16,
}

/// Where a run stands at a DISPATCH: how many versions its search looks at, and how many the function has.
#[derive(Clone, Copy)]
pub enum Search {
    Elsewhere,
    Looked(u8, u8),
}

/// A run begun: its state before the first step; one without calls where it is refused.
#[derive(Drop)]
pub struct Begun {
    pub state: State,
    pub entry: Result<(), Denial>,
}

/// 02, request 8: how many steps lie behind a state since its start or the last change of its image; past 4,294,967,295 none does any more.
#[derive(Clone, Copy)]
pub enum Behind {
    Steps(u32),
    Past,
}

/// A state with its start kept: the one that the run began in, or that the last change of its image carried over.
#[derive(Drop)]
pub struct Trail {
    pub start: State,
    pub behind: Behind,
    pub state: State,
}

/// A step back: the trail after it, as it was where it is refused.
#[derive(Drop)]
pub struct Returned {
    pub trail: Trail,
    pub back: Result<(), Denial>,
}

/// What each of eight runs reserves of 64 vectors, and how many each has; in the layout of C.
#[repr(C)]
#[derive(Clone, Copy)]
pub struct Pool {
    pub reserves: [u8; 8],
    pub has: [u8; 8],
}

/// What a single step in a pool says: a refusal's number and offset, or what a single step says.
#[derive(Clone, Copy)]
pub enum PoolSaid {
    Refused(u8, u16),
    GoesOn,
    Ended(End),
    Stuck,
}

/// A register of the topmost call, for a service screen: its declared type, and what it holds: 0 nothing, 1 the integer, 2 the vector's
/// length and items, 3 the promise's mark. All other numbers are 0.
#[repr(C)]
#[derive(Clone, Copy)]
pub struct Row {
    pub integer: i64,
    pub items: [i64; 16],
    pub declared: u8,
    pub holds: u8,
    pub length: u8,
    pub mark: u8,
}

impl Vector {
    /// The most items of a vector, and the fewest places of a result buffer.
    pub const ITEMS: usize = 16;
}

impl Frame {
    /// How many registers a frame has.
    pub const REGISTERS: usize = 16;

    /// How many names a frame has.
    pub const NAMES: usize = 8;

    /// A frame with empty registers and unset names.
    pub fn new(function: u8, version: u8) -> Self
        ensures { result ≡ new_frame function version }
    {
        Frame {
            function: function,
            version: version,
            registers: [Place {
                value: Value::Empty,
            }; 16],
            names: [Place {
                value: Value::Empty,
            }; 8],
        }
    }

    /// Reads the register `r`.
    pub fn register(self, r: u8) -> Option<Value>
        ensures { result ≡ read_of (register self r) }
    {
        read(&self.registers, r)
    }

    /// Reads the name `x`.
    pub fn name(self, x: u8) -> Option<Value>
        ensures { result ≡ read_of (named self x) }
    {
        read(&self.names, x)
    }

    /// The frame with the register `d` put to the value; as it was where it has no such register.
    pub fn with_register(mut self, d: u8, value: Value) -> Result<Frame, Frame>
        ensures { result ≡ written_of self (with_register self d value) }
    {
        let i = usize::from(d);
        if i < Frame::REGISTERS {
            self.registers[i] = Place { value };
            Ok(self)
        } else {
            Err(self)
        }
    }

    /// The frame with the name `x` put to the value; as it was where it has no such name.
    pub fn with_name(mut self, x: u8, value: Value) -> Result<Frame, Frame>
        ensures { result ≡ written_of self (with_name self x value) }
    {
        let i = usize::from(x);
        if i < Frame::NAMES {
            self.names[i] = Place { value };
            Ok(self)
        } else {
            Err(self)
        }
    }

    /// Does a register or a name hold the vector at the place `v`?
    pub fn refers_to_vector(self, v: u8) -> bool
        ensures { result ≡ refers (is_vector v) self }
    {
        self.refers_to(Value::Vector(v))
    }

    /// Does a register or a name hold the promise at the place `p`?
    pub fn refers_to_promise(self, p: u8) -> bool
        ensures { result ≡ refers (is_promise p) self }
    {
        self.refers_to(Value::Promise(p))
    }

    /// Does a register or a name hold the value?
    fn refers_to(self, value: Value) -> bool
        ensures { result ≡ refers (is_it value) self }
    {
        holds(&self.registers, value) || holds(&self.names, value)
    }
}

/// What the place `i` of the array holds, where it has one.
fn read(places: &[Place], i: u8) -> Option<Value>
    ensures { result ≡ read_of (read_at places.now i) }
{
    let place = places.get(usize::from(i))?;
    Some(place.value)
}

/// Does one of the places hold the value?
fn holds(places: &[Place], value: Value) -> bool
    ensures { result ≡ holds (is_it value) places.now }
{
    places.contains(&Place { value })
}
