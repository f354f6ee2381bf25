//! Where the records of a text end, and which of them have more fields than a table has columns.
ghost use Rattle.std.specs.Prelude.{◌+◌};
ghost use Rattle.csv.specs.Reading.{default_config};
ghost use Rattle.csv.specs.Machine as csv;
ghost use Rattle.pref_table.specs.Records.{Does, IsNext, state_at};

use crate::schema::MAX_COLUMNS;

/// Where a byte of a text stands.
#[derive(Clone, Copy)]
pub(crate) enum Place {
    /// Behind the end of a record, or at the start of the text.
    BetweenRecords,
    /// Behind a comma.
    BeforeField,
    /// Inside a field without quotes, or behind its quotes.
    InField,
    /// Inside the quotes of a field.
    InQuotes,
    /// Behind a quote that ends these quotes, unless another one follows.
    AfterQuote,
}

/// The effect of a byte.
#[derive(Clone, Copy)]
pub(crate) enum Effect {
    /// No field ends with it, and the next byte stands here.
    Goes(Place),
    /// It is the comma behind a field.
    EndsField,
    /// It ends the record.
    EndsRecord,
}

/// The next record of a text.
#[derive(Clone, Copy)]
pub(crate) enum Next<'text> {
    /// There is none.
    Nothing,
    /// It has more than 16 fields.
    Wide,
    /// It has 16 fields at most, and this text follows it.
    Narrow(&'text [u8]),
}

/// The effect of a byte that stands in this place.
fn effect_of(place: Place, byte: u8) -> Effect
    ensures { Does (csv.step default_config (state_at place) byte) result }
{
    match (place, byte) {
        (Place::InQuotes, b'"') => Effect::Goes(Place::AfterQuote),
        (Place::InQuotes, _) => Effect::Goes(Place::InQuotes),
        (Place::BetweenRecords, b'\r' | b'\n') => Effect::Goes(Place::BetweenRecords),
        (Place::BetweenRecords | Place::BeforeField | Place::AfterQuote, b'"') => {
            Effect::Goes(Place::InQuotes)
        }
        (_, b',') => Effect::EndsField,
        (_, b'\r' | b'\n') => Effect::EndsRecord,
        _ => Effect::Goes(Place::InField),
    }
}

/// The next record of a text. A record may be all commas for megabytes, so it is read up to its 17th field, and nothing is kept of it.
pub(crate) fn next_in(text: &[u8]) -> Next<'_>
    ensures { IsNext text.now result }
{
    let mut place = Place::BetweenRecords;
    let mut fields = 0;
    for (at, byte) in text.iter().enumerate() {
        match effect_of(place, *byte) {
            Effect::Goes(next) => place = next,
            Effect::EndsField => {
                place = Place::BeforeField;
                fields += 1;
                if fields == MAX_COLUMNS {
                    return Next::Wide;
                }
            }
            Effect::EndsRecord => return Next::Narrow(&text[at + 1..]),
        }
    }
    match place {
        Place::BetweenRecords => Next::Nothing,
        _ => Next::Narrow(&text[text.len()..]),
    }
}
