// Names in the order of their making, each found in constant time by its first place.
ghost use Rattle.std.specs.Prelude.{◌≡◌, ℕ, List, [], ◌∷◌, ◌++◌, nat_eq, OnOk, OnErr};
ghost use Rattle.std.specs.Str.{bytes_eq};
ghost use Rattle.std.specs.HashMap.{get, get_by};
ghost use Rattle.ms_names.specs.Places.{word_place, name_place, or_here};
ghost use Rattle.ms_names.specs.Draft.{found_as};

use ms_ir::{Name, NoMemory, Text};
use std::alloc::Global;
use std::collections::HashMap;
use std::marker::Model;

// A further word, which keeps the place that it has.
fn put_word<'a>(
    places: &mut HashMap<&'a [u8], u64>,
    word: &'a [u8],
    place: u64,
) -> Result<(), NoMemory>
    ensures ok { OnOk result ((q : List ℕ) → get_by (λ k. bytes_eq q k.now) places.new
        ≡ or_here (get_by (λ k. bytes_eq q k.now) places.old) (bytes_eq q word.now) place) }
    ensures err { OnErr result ((q : List ℕ) → get_by (λ k. bytes_eq q k.now) places.new ≡ get_by (λ k. bytes_eq q k.now) places.old) }
{
    match places.get(word) {
        Some(_) => Ok(()),
        None => {
            places.insert(word, place)?;
            Ok(())
        }
    }
}

// A further number, which keeps the place that it has.
fn put_number(places: &mut HashMap<u32, u64>, number: u32, place: u64) -> Result<(), NoMemory>
    ensures ok { OnOk result ((q : ℕ) → get nat_eq places.new q ≡ or_here (get nat_eq places.old q) (nat_eq q number) place) }
    ensures err { OnErr result ((q : ℕ) → get nat_eq places.new q ≡ get nat_eq places.old q) }
{
    match places.get(&number) {
        Some(_) => Ok(()),
        None => {
            places.insert(number, place)?;
            Ok(())
        }
    }
}

/// Words in the order of their making. A word may stand more than once.
#[derive(Drop)]
pub struct Words<'a> {
    places: HashMap<&'a [u8], u64>,
    words: Vec<&'a [u8]>,
}

impl<'a> Model for Words<'a> {
    ghost use Rattle.std.specs.Prelude.{◌≡◌, List, ℕ, map};
    ghost use Rattle.std.specs.Str.{bytes_eq};
    ghost use Rattle.std.specs.HashMap.{get_by};
    ghost use Rattle.std.specs.Coded.{coded_list, coded_ℕ};
    ghost use Rattle.ms_names.specs.Places.{word_place};

    ghost Value = { List (List ℕ) };

    ghost coded = { coded_list (coded_list coded_ℕ) };

    ghost view = { λ t. map (λ w. w.now) t.words.items };

    ghost invariant = { λ t. (q : List ℕ) → get_by (λ k. bytes_eq q k.now) t.places ≡ word_place (map (λ w. w.now) t.words.items) q };
}

impl<'a> Words<'a> {
    pub(crate) fn new(alloc: Global) -> Words<'a>
        ensures { result ≡ [] }
    {
        Words {
            places: HashMap::new(alloc),
            words: Vec::new(alloc),
        }
    }

    /// The first place of a word.
    pub fn find(&self, word: &[u8]) -> Option<u64>
        ensures { result ≡ word_place self.now word.now }
    {
        self.places.get(word).copied()
    }

    pub(crate) fn add(&mut self, word: &'a [u8]) -> Result<(), NoMemory>
        ensures ok { OnOk result (self.new ≡ self.old ++ word.now ∷ []) }
        ensures err { OnErr result (self.new ≡ self.old) }
    {
        let place = self.words.len() as u64;
        self.words.reserve(1)?;
        put_word(&mut self.places, word, place)?;
        self.words.push_reserved(word);
        Ok(())
    }
}

/// The full names of things of one kind, in the order of their making. A thing that is not found by its name has none here.
#[derive(Drop)]
pub struct NameTable<'a> {
    words: HashMap<&'a [u8], u64>,
    numbers: HashMap<u32, u64>,
    names: Vec<Name>,
}

impl<'a> Model for NameTable<'a> {
    ghost use Rattle.std.specs.Prelude.{◌≡◌, List, ℕ, nat_eq};
    ghost use Rattle.std.specs.Str.{bytes_eq};
    ghost use Rattle.std.specs.HashMap.{get, get_by};
    ghost use Rattle.ms_ir.specs.declared.names.Name.{Name};
    ghost use Rattle.ms_ir.specs.declared.names.Name.TheVariants.{Word, Number};
    ghost use Rattle.ms_names.specs.Places.{name_place};

    ghost Value = { List Name };

    ghost view = { λ t. t.names.items };

    ghost invariant = { λ t. ((q : List ℕ) → get_by (λ k. bytes_eq q k.now) t.words ≡ name_place t.names.items (Word q))
        × ((n : ℕ) → get nat_eq t.numbers n ≡ name_place t.names.items (Number n)) };
}

impl<'a> NameTable<'a> {
    pub(crate) fn new(alloc: Global) -> NameTable<'a>
        ensures { result ≡ [] }
    {
        NameTable {
            words: HashMap::new(alloc),
            numbers: HashMap::new(alloc),
            names: Vec::new(alloc),
        }
    }

    /// All names.
    pub fn names(&self) -> &[Name]
        ensures { result.now ≡ self.now }
    {
        self.names.as_slice()
    }

    pub(crate) fn find_word(&self, word: &[u8]) -> Option<u64>
        ensures { result ≡ name_place self.now (Name.Word word.now) }
    {
        self.words.get(word).copied()
    }

    pub(crate) fn find_number(&self, number: u32) -> Option<u64>
        ensures { result ≡ name_place self.now (Name.Number number) }
    {
        self.numbers.get(&number).copied()
    }

    /// The first place of a name.
    pub fn find(&self, name: &Name) -> Option<u64>
        ensures { result ≡ name_place self.now name.now }
    {
        match name {
            Name::Word(text) => self.find_word(text.bytes()),
            Name::Number(n) => self.find_number(*n),
            Name::Absent => None,
        }
    }

    fn add_absent(&mut self) -> Result<(), NoMemory>
        ensures ok { OnOk result (self.new ≡ self.old ++ Name.Absent ∷ []) }
        ensures err { OnErr result (self.new ≡ self.old) }
    {
        self.names.push(Name::Absent)?;
        Ok(())
    }

    fn add_word(&mut self, alloc: Global, word: &'a [u8]) -> Result<(), NoMemory>
        ensures ok { OnOk result (self.new ≡ self.old ++ Name.Word word.now ∷ []) }
        ensures err { OnErr result (self.new ≡ self.old) }
    {
        let copy = Text::from_bytes(alloc, word)?;
        let place = self.names.len() as u64;
        self.names.reserve(1)?;
        put_word(&mut self.words, word, place)?;
        self.names.push_reserved(Name::Word(copy));
        Ok(())
    }

    fn add_number(&mut self, number: u32) -> Result<(), NoMemory>
        ensures ok { OnOk result (self.new ≡ self.old ++ Name.Number number ∷ []) }
        ensures err { OnErr result (self.new ≡ self.old) }
    {
        let place = self.names.len() as u64;
        self.names.reserve(1)?;
        put_number(&mut self.numbers, number, place)?;
        self.names.push_reserved(Name::Number(number));
        Ok(())
    }

    // A further thing with this word for its name, which another thing has or not.
    pub(crate) fn note_word(
        &mut self,
        alloc: Global,
        word: &'a [u8],
        taken: bool,
    ) -> Result<(), NoMemory>
        ensures ok { OnOk result (self.new ≡ self.old ++ found_as taken (Name.Word word.now) ∷ []) }
        ensures err { OnErr result (self.new ≡ self.old) }
    {
        if taken {
            self.add_absent()
        } else {
            self.add_word(alloc, word)
        }
    }

    // The same with a number.
    pub(crate) fn note_number(&mut self, number: u32, taken: bool) -> Result<(), NoMemory>
        ensures ok { OnOk result (self.new ≡ self.old ++ found_as taken (Name.Number number) ∷ []) }
        ensures err { OnErr result (self.new ≡ self.old) }
    {
        if taken {
            self.add_absent()
        } else {
            self.add_number(number)
        }
    }
}
