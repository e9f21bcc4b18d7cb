// Why a call is turned down; document 01's table has the causes in full, and document 02 what it adds to them.
ghost use Rattle.std.specs.Prelude.{◌≡◌};
ghost use Rattle.numbers.specs.Numbered.{number_of};

pub const ACCEPTED: u32 = 0;

// Cards.
pub const CARD_ENDS: u32 = 1;

pub const NUMBER_FORM: u32 = 2;

pub const WRONG_KIND: u32 = 3;

pub const WRONG_ZONES: u32 = 4;

pub const WRONG_POSITIONS: u32 = 5;

pub const WRONG_TIME: u32 = 6;

pub const RISING_TIME: u32 = 7;

pub const WRONG_BLOCKS: u32 = 8;

pub const BLOCKS_ABOVE_POSITIONS: u32 = 9;

pub const WRONG_MEASURE: u32 = 10;

pub const CARD_GOES_ON: u32 = 11;

// The planner, and lent lists.
pub const NO_STREAM: u32 = 12;

pub const TOO_SHORT: u32 = 13;

// The desk.
pub const NOT_SOUND: u32 = 14;

pub const WRONG_PHASE: u32 = 15;

pub const NO_SUCH_SLOT: u32 = 16;

pub const SLOT_STATE: u32 = 17;

pub const NO_SUCH_BLOCK: u32 = 18;

pub const DRAW_COUNT: u32 = 19;

pub const DRAW_ABOVE_LIMIT: u32 = 20;

pub const DRAW_ABOVE_HELD: u32 = 21;

// Makers' texts, by document 02.
pub const LINE_FORM: u32 = 22;

pub const WRONG_HEADING: u32 = 23;

pub const WRONG_ROW: u32 = 24;

// Cards, by document 02.
pub const WRONG_OVERHEAD: u32 = 25;

pub const HALF_DEAD_TIME: u32 = 26;

// Windows, by document 02.
pub const WRONG_WINDOW: u32 = 27;

// Half blocks, by document 02.
pub const HALVES_ABOVE_POSITIONS: u32 = 28;

// The second planner, by document 02.
pub const FILM_TOO_LONG: u32 = 29;

// Shelves, by document 02: of a card, and of a join.
pub const WRONG_FILMS: u32 = 30;

pub const NO_SUCH_FILM: u32 = 31;

// The refusals themselves, in the order of their numbers.
#[derive(Clone, Copy, PartialEq, Eq)]
pub enum Refusal {
    CardEnds,
    NumberForm,
    WrongKind,
    WrongZones,
    WrongPositions,
    WrongTime,
    RisingTime,
    WrongBlocks,
    BlocksAbovePositions,
    WrongMeasure,
    CardGoesOn,
    NoStream,
    TooShort,
    NotSound,
    WrongPhase,
    NoSuchSlot,
    SlotState,
    NoSuchBlock,
    DrawCount,
    DrawAboveLimit,
    DrawAboveHeld,
    LineForm,
    WrongHeading,
    WrongRow,
    WrongOverhead,
    HalfDeadTime,
    WrongWindow,
    HalvesAbovePositions,
    FilmTooLong,
    WrongFilms,
    NoSuchFilm,
}

impl Refusal {
    // Its number.
    pub fn number(self) -> u32
        ensures { result ≡ number_of self }
    {
        match self {
            Refusal::CardEnds => CARD_ENDS,
            Refusal::NumberForm => NUMBER_FORM,
            Refusal::WrongKind => WRONG_KIND,
            Refusal::WrongZones => WRONG_ZONES,
            Refusal::WrongPositions => WRONG_POSITIONS,
            Refusal::WrongTime => WRONG_TIME,
            Refusal::RisingTime => RISING_TIME,
            Refusal::WrongBlocks => WRONG_BLOCKS,
            Refusal::BlocksAbovePositions => BLOCKS_ABOVE_POSITIONS,
            Refusal::WrongMeasure => WRONG_MEASURE,
            Refusal::CardGoesOn => CARD_GOES_ON,
            Refusal::NoStream => NO_STREAM,
            Refusal::TooShort => TOO_SHORT,
            Refusal::NotSound => NOT_SOUND,
            Refusal::WrongPhase => WRONG_PHASE,
            Refusal::NoSuchSlot => NO_SUCH_SLOT,
            Refusal::SlotState => SLOT_STATE,
            Refusal::NoSuchBlock => NO_SUCH_BLOCK,
            Refusal::DrawCount => DRAW_COUNT,
            Refusal::DrawAboveLimit => DRAW_ABOVE_LIMIT,
            Refusal::DrawAboveHeld => DRAW_ABOVE_HELD,
            Refusal::LineForm => LINE_FORM,
            Refusal::WrongHeading => WRONG_HEADING,
            Refusal::WrongRow => WRONG_ROW,
            Refusal::WrongOverhead => WRONG_OVERHEAD,
            Refusal::HalfDeadTime => HALF_DEAD_TIME,
            Refusal::WrongWindow => WRONG_WINDOW,
            Refusal::HalvesAbovePositions => HALVES_ABOVE_POSITIONS,
            Refusal::FilmTooLong => FILM_TOO_LONG,
            Refusal::WrongFilms => WRONG_FILMS,
            Refusal::NoSuchFilm => NO_SUCH_FILM,
        }
    }
}

// A refusal with its place, the offset that is returned beside its number.
#[derive(Clone, Copy)]
pub struct Refused {
    pub refusal: Refusal,
    pub place: usize,
}
