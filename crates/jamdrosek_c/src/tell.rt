//! What a call answers C.

ghost use Rattle.std.specs.Prelude.{◌≡◌};
ghost use Rattle.jamdrosek_c.specs.Reader.{mode_of};
ghost use Rattle.jamdrosek_c.specs.Connection.{TellsCap};
ghost use Rattle.jamdrosek_c.specs.Tell.{Tells, TellsEvent, TellsStep, TellsNumber, TellsNumbers, end_code, done_code};

use c_handles::{CallFault, CapNumbers, EventNumbers, MessageNumbers, NOWHERE, Spot};
use cp_frame::{FrameFault, Mode};

/// All went well.
pub(crate) const DONE: u32 = 0;

/// The handle is closed.
pub(crate) const CLOSED: u32 = 1;

/// F6.
pub(crate) const NO_MEMORY: u32 = 106;

/// How many bytes were taken, and whether a frame is there.
#[repr(C)]
#[derive(Clone, Copy, PartialEq, Eq, Debug)]
pub struct Step {
    pub taken: usize,
    pub has_frame: bool,
}

impl Step {
    /// None, and none.
    pub(crate) const NONE: Step = Step {
        taken: 0,
        has_frame: false,
    };
}

/// No kind and no numbers.
const NO_NUMBERS: MessageNumbers = MessageNumbers {
    kind: 0,
    id: 0,
    interface: 0,
    method: 0,
    releases: false,
    count: 0,
};

/// The form of a stream.
pub(crate) fn mode_of(packed: bool) -> Mode
    ensures { result ≡ mode_of packed }
{
    if packed { Mode::Packed } else { Mode::Plain }
}

/// How many bytes were taken, or the fault.
pub(crate) fn tell_step(taken: Result<usize, FrameFault>, has_frame: bool, step: &mut Step) -> u32
    ensures { TellsStep taken has_frame step.new result }
{
    match taken {
        Ok(taken) => {
            *step = Step { taken, has_frame };
            DONE
        }
        Err(fault) => {
            *step = Step::NONE;
            CallFault::from(fault).code()
        }
    }
}

/// How a stream ended.
pub(crate) fn tell_end(ended: Result<(), FrameFault>) -> u32
    ensures { result ≡ end_code ended }
{
    match ended {
        Ok(()) => DONE,
        Err(fault) => CallFault::from(fault).code(),
    }
}

/// The fault of a call, without what is to blame.
pub(crate) fn tell_bytes(done: Result<(), CallFault>) -> u32
    ensures { result ≡ done_code done }
{
    match done {
        Ok(()) => DONE,
        Err(fault) => fault.code(),
    }
}

/// The fault of a call, and what is to blame.
pub(crate) fn tell(done: Result<(), CallFault>, spot: &mut Spot) -> u32
    ensures { Tells done spot.new result }
{
    match done {
        Ok(()) => {
            *spot = NOWHERE;
            DONE
        }
        Err(fault) => {
            *spot = fault.spot();
            fault.code()
        }
    }
}

/// The numbers of a message, or the fault and what is to blame.
pub(crate) fn tell_numbers(
    numbers: Result<MessageNumbers, CallFault>,
    message: &mut MessageNumbers,
    spot: &mut Spot,
) -> u32
    ensures { TellsNumbers numbers message.new spot.new result }
{
    match numbers {
        Ok(numbers) => {
            *message = numbers;
            *spot = NOWHERE;
            DONE
        }
        Err(fault) => {
            *message = NO_NUMBERS;
            *spot = fault.spot();
            fault.code()
        }
    }
}

/// A number of bytes, or the fault.
pub(crate) fn tell_count(count: Result<usize, CallFault>, out: &mut usize) -> u32
    ensures { TellsNumber count out.new result }
{
    match count {
        Ok(count) => {
            *out = count;
            DONE
        }
        Err(fault) => {
            *out = 0;
            fault.code()
        }
    }
}

/// A question or a promise, or the fault.
pub(crate) fn tell_number(number: Result<u32, CallFault>, out: &mut u32) -> u32
    ensures { TellsNumber number out.new result }
{
    match number {
        Ok(number) => {
            *out = number;
            DONE
        }
        Err(fault) => {
            *out = 0;
            fault.code()
        }
    }
}

/// An event, or none and the fault.
pub(crate) fn tell_event(numbers: Result<EventNumbers, CallFault>, event: &mut EventNumbers) -> u32
    ensures { TellsEvent numbers event.new result }
{
    match numbers {
        Ok(numbers) => {
            *event = numbers;
            DONE
        }
        Err(fault) => {
            *event = EventNumbers::NOTHING;
            fault.code()
        }
    }
}

/// A capability, or the fault.
pub(crate) fn tell_cap(numbers: Result<CapNumbers, CallFault>, cap: &mut CapNumbers) -> u32
    ensures { TellsCap numbers cap.new result }
{
    match numbers {
        Ok(numbers) => {
            *cap = numbers;
            DONE
        }
        Err(fault) => {
            *cap = CapNumbers::NONE;
            fault.code()
        }
    }
}
