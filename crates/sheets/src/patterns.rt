// The rules of a row's conditions and entries.
ghost use Rattle.std.specs.Prelude.{◌≡◌, length};
ghost use Rattle.sheets.specs.Sound.{sound_argument, sound_condition, sound_entry, sound_pattern};
ghost use Rattle.sheets.specs.Tables.{argument_list};
ghost use Rattle.sheets.specs.Words.{every, present};

use crate::lookup::state_of;
use crate::names::Names;
use crate::tables::{Argument, Arguments, Condition, Entry, Pattern};

impl Arguments {
    // How many arguments there are.
    fn count(self) -> u8
        ensures { result ≡ length (argument_list self) }
    {
        match self {
            Arguments::Nothing => 0,
            Arguments::One(_) => 1,
            Arguments::Two(_, _) => 2,
            Arguments::Three(_, _, _) => 3,
        }
    }
}

impl Names<'_> {
    fn argument_sound(self, any: bool, argument: Argument) -> bool
        ensures { result ≡ sound_argument self.entry.constants self.entry.parameters (present self.entry.cells.now) any argument }
    {
        match argument {
            Argument::Constant(number) => self.has_constant(number),
            Argument::Own(number) => self.has_parameter(number),
            Argument::Slot(slot) => self.is_bound(slot),
            Argument::Any => any,
        }
    }

    fn arguments_sound(self, any: bool, arguments: Arguments) -> bool
        ensures { result ≡ every (sound_argument self.entry.constants self.entry.parameters (present self.entry.cells.now) any) (argument_list arguments) }
    {
        match arguments {
            Arguments::Nothing => true,
            Arguments::One(a) => self.argument_sound(any, a),
            Arguments::Two(a, b) => self.argument_sound(any, a) && self.argument_sound(any, b),
            Arguments::Three(a, b, c) => {
                self.argument_sound(any, a)
                    && self.argument_sound(any, b)
                    && self.argument_sound(any, c)
            }
        }
    }

    // Whether a pattern is sound; `any` says whether any value may stand for an argument.
    fn pattern_sound(self, any: bool, pattern: Pattern) -> bool
        ensures { result ≡ sound_pattern self.entry.constants self.entry.parameters self.entry.states.now (present self.entry.cells.now) any pattern }
    {
        usize::from(pattern.state) < self.states.len()
            && pattern.arguments.count() == state_of(self.states, pattern.state).parameters
            && self.arguments_sound(any, pattern.arguments)
    }

    fn condition_sound(self, condition: Condition) -> bool
        ensures { result ≡ sound_condition self.entry.constants self.entry.parameters self.entry.states.now (present self.entry.cells.now) condition }
    {
        self.pattern_sound(true, condition.pattern)
    }

    fn entry_sound(self, entry: Entry) -> bool
        ensures { result ≡ sound_entry self.entry.constants self.entry.parameters self.entry.states.now (present self.entry.cells.now) entry }
    {
        match entry {
            Entry::Ok | Entry::Error => true,
            Entry::Ask(pattern) | Entry::Strike(pattern) => self.pattern_sound(false, pattern),
        }
    }

    // Whether each condition that is there is sound.
    pub fn conditions_sound(self, conditions: &[Option<Condition>]) -> bool
        ensures { result ≡ every (sound_condition self.entry.constants self.entry.parameters self.entry.states.now (present self.entry.cells.now)) (present conditions.now) }
    {
        conditions
            .iter()
            .flatten()
            .all(|condition| self.condition_sound(*condition))
    }

    // Whether each entry that is there is sound.
    pub fn entries_sound(self, entries: &[Option<Entry>]) -> bool
        ensures { result ≡ every (sound_entry self.entry.constants self.entry.parameters self.entry.states.now (present self.entry.cells.now)) (present entries.now) }
    {
        entries
            .iter()
            .flatten()
            .all(|entry| self.entry_sound(*entry))
    }
}
