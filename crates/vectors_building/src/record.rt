// A building record, such as F,32,30,1,0: the packet's letter, where the next piece goes, where the count stands, how many headers there
// are, and whether an attribute was added.
use building_record::{Building, BuildingKind};
use packet::Place;
use std::fmt;
use std::fmt::{Display, Formatter};
use vectors_text::words::FlagWord;
use vectors_text::{parse, text};

// The record that the first five words of a text say.
pub fn parse(s: &[u8]) -> Building {
    let kind = kind(text::word(s, 0));
    let next = Place(parse::number(s, 1));
    let count = Place(parse::number(s, 2));
    Building::with_fields(kind, next, count, parse::number(s, 3), parse::flag(s, 4))
}

fn kind(letter: &[u8]) -> BuildingKind {
    match letter {
        b"F" => BuildingKind::Forward,
        _ => BuildingKind::SendHeaders,
    }
}

// A record in these words.
#[derive(Clone, Copy)]
pub struct Words(pub Building);

impl Display for Words {
    fn fmt<W: fmt::Write>(&self, f: &mut Formatter<W>) -> fmt::Result {
        let building = self.0;
        let letter = letter(building.kind());
        let next = building.next();
        let next = next.0;
        let count = building.count_place();
        let count = count.0;
        let headers = building.headers();
        let attributes_began = FlagWord(building.attributes_began());
        write!(f, "{letter},{next},{count},{headers},{attributes_began}")
    }
}

fn letter(kind: BuildingKind) -> char {
    match kind {
        BuildingKind::Forward => 'F',
        BuildingKind::SendHeaders => 'H',
    }
}
