ghost use Rattle.std.specs.Prelude.{◌≡◌, ℕ, ◌==◌};
ghost use Rattle.records.specs.States.{code, Decodes};
ghost use Rattle.records.specs.Records.{record_of};

/// What a parcel has come to.
#[derive(Clone, Copy, Debug, PartialEq, Eq)]
pub enum State {
    /// The parcel has not started.
    Idle = 0,
    /// The parcel waits for an answer from the parcel that it chose.
    Waits = 1,
    /// The parcel is paired with the parcel that it chose.
    Paired = 2,
    /// The parcel stays alone.
    Lone = 3,
}

/// A number that is no state.
#[derive(Clone, Copy, Debug, PartialEq, Eq)]
pub struct UnknownState(pub u8);

impl From<State> for u8 {
    ghost from_gives = { λ state n. n ≡ code state };

    fn from(state: State) -> u8 {
        state as u8
    }
}

impl TryFrom<u8> for State {
    type Error = UnknownState;

    ghost try_from_gives = { Decodes };

    fn try_from(number: u8) -> Result<State, UnknownState> {
        match number {
            0 => Ok(State::Idle),
            1 => Ok(State::Waits),
            2 => Ok(State::Paired),
            3 => Ok(State::Lone),
            _ => Err(UnknownState(number)),
        }
    }
}

/// The record of one parcel.
#[repr(C)]
#[derive(Clone, Copy, Debug, PartialEq, Eq)]
pub struct Record {
    /// The number of the parcel's `State`. C programs lend tables of records too, with any number.
    pub state: u8,
    /// The chosen entry: its place, counted from the beginning of the parcel's row.
    pub choice: u32,
}

impl Record {
    /// The record of a parcel that has not started.
    pub const IDLE: Record = Record {
        state: State::Idle as u8,
        choice: 0,
    };

    /// The record of a parcel that stays alone.
    pub const LONE: Record = Record {
        state: State::Lone as u8,
        choice: 0,
    };

    /// The record of a parcel in this state, with this choice.
    pub fn new(state: State, choice: u32) -> Record
        ensures { result ≡ record { state = code state; choice = choice } }
    {
        Record {
            state: u8::from(state),
            choice,
        }
    }

    /// Whether the parcel is in this state.
    pub fn is(self, state: State) -> bool
        ensures { result ≡ (self.state == code state) }
    {
        self.state == u8::from(state)
    }
}

/// Makes every parcel idle.
pub fn clear_records(records: &mut [Record])
    ensures { (u : ℕ) → record_of records.new u ≡ record { state = 0; choice = 0 } }
{
    records.fill(Record::IDLE);
}
