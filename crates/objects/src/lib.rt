#![tactic(auto)]
// The object table: its entries, and the records of the values that set and move them.
ghost use Rattle.std.specs.Prelude.{◌≡◌};
ghost use Rattle.objects.specs.Entries.{moved, free};

// An entry of a lent table, as C has it. It is free when its element is 0. The default is a cleared entry.
#[repr(C)]
#[derive(Clone, Copy, Debug, Default, PartialEq, Eq)]
pub struct Object {
    pub element: u32,
    pub class: u32,
    pub dynamic: u32,
    pub x: u32,
    pub y: u32,
    pub z: u32,
    pub size: u32,
    pub size3d: u32,
    pub diverge: u32,
    pub source: u32,
    pub gain: u32,
}

// A record of an AOD. It has an entry's fields, and is none: who owns an entry is not in a value.
#[derive(Clone, Copy, Debug, PartialEq, Eq)]
pub struct Aod {
    pub element: u32,
    pub class: u32,
    pub dynamic: u32,
    pub x: u32,
    pub y: u32,
    pub z: u32,
    pub size: u32,
    pub size3d: u32,
    pub diverge: u32,
    pub source: u32,
    pub gain: u32,
}

// A record of an XYZ.
#[derive(Clone, Copy, Debug, PartialEq, Eq)]
pub struct Xyz {
    pub element: u32,
    pub x: u32,
    pub y: u32,
    pub z: u32,
}

// The entry that a record makes.
impl From<Aod> for Object {
    ghost use Rattle.std.specs.Prelude.{◌≡◌};
    ghost use Rattle.objects.specs.Entries.{made};

    ghost from_gives = { λ r o. o ≡ made r };

    fn from(r: Aod) -> Object {
        Object {
            element: r.element,
            class: r.class,
            dynamic: r.dynamic,
            x: r.x,
            y: r.y,
            z: r.z,
            size: r.size,
            size3d: r.size3d,
            diverge: r.diverge,
            source: r.source,
            gain: r.gain,
        }
    }
}

impl Object {
    pub fn is_free(self) -> bool
        ensures { result ≡ free self }
    {
        self.element == 0
    }

    // The entry where a record puts it.
    pub fn moved(self, m: Xyz) -> Object
        ensures { result ≡ moved m self }
    {
        Object {
            x: m.x,
            y: m.y,
            z: m.z,
            ..self
        }
    }
}
