// The rule book's table of kinds: what a kind of part is, its number, the relay or button that it carries, and its
// fields.
#![tactic(auto)]

ghost use Rattle.kinds.specs.Kinds.{KindOf, KindNumber, KindName, KindFields};

use arrayvec::ArrayVec;

// The kinds of part in the order of the rule book's table, each with its relay or button. A mark says that its relay
// starts drawn (request A2).
#[derive(Clone, Copy, Debug, PartialEq, Eq)]
pub enum Kind {
    Wire,
    Upper(u8),
    Lower(u8),
    Button(u8),
    Regular(u8),
    Drawing(u8),
    Dropping(u8),
    Mark(u8),
}

// The numbers of the kinds in the table's order; a wire carries no relay or button. And the highest kind number.
pub const WIRE_KIND: u32 = 0;

pub const UPPER_KIND: u32 = 1;

pub const LOWER_KIND: u32 = 2;

pub const BUTTON_KIND: u32 = 3;

pub const REGULAR_KIND: u32 = 4;

pub const DRAWING_KIND: u32 = 5;

pub const DROPPING_KIND: u32 = 6;

pub const MARK_KIND: u32 = 7;

pub const LAST_KIND: u32 = MARK_KIND;

// The most fields that a part has.
pub const MOST_FIELDS: usize = 3;

impl Kind {
    // The kind of this number, up to the last, that carries a relay or button.
    pub fn of(number: u32, name: u8) -> Self
        ensures { KindOf number name result }
    {
        match number {
            0 => Kind::Wire,
            1 => Kind::Upper(name),
            2 => Kind::Lower(name),
            3 => Kind::Button(name),
            4 => Kind::Regular(name),
            5 => Kind::Drawing(name),
            6 => Kind::Dropping(name),
            _ => Kind::Mark(name),
        }
    }

    // The kind's number in the rule book's table.
    pub fn number(self) -> u32
        ensures { KindNumber self result }
    {
        match self {
            Kind::Wire => WIRE_KIND,
            Kind::Upper(_) => UPPER_KIND,
            Kind::Lower(_) => LOWER_KIND,
            Kind::Button(_) => BUTTON_KIND,
            Kind::Regular(_) => REGULAR_KIND,
            Kind::Drawing(_) => DRAWING_KIND,
            Kind::Dropping(_) => DROPPING_KIND,
            Kind::Mark(_) => MARK_KIND,
        }
    }

    // The relay or button that the kind carries; 0 for a wire, which carries none.
    pub fn name(self) -> u8
        ensures { KindName self result }
    {
        match self {
            Kind::Wire => 0,
            Kind::Upper(carried)
            | Kind::Lower(carried)
            | Kind::Button(carried)
            | Kind::Regular(carried)
            | Kind::Drawing(carried)
            | Kind::Dropping(carried)
            | Kind::Mark(carried) => carried,
        }
    }

    // The fields that the table gives a part of this kind with the ends a and b; a mark's ends are not among them.
    pub fn fields(self, a: u8, b: u8) -> ArrayVec<u8, MOST_FIELDS>
        ensures { KindFields self a b result.items }
    {
        let mut fields = ArrayVec::new();
        match self {
            Kind::Wire => {
                fields.push(a);
                fields.push(b);
            }
            Kind::Upper(name)
            | Kind::Lower(name)
            | Kind::Button(name)
            | Kind::Regular(name)
            | Kind::Drawing(name)
            | Kind::Dropping(name) => {
                fields.push(a);
                fields.push(b);
                fields.push(name);
            }
            Kind::Mark(relay) => fields.push(relay),
        }
        fields
    }
}
