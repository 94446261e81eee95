// Where each CP register stands among the 60.
#![tactic(auto)]

ghost use Rattle.std.specs.Prelude.{◌≡◌};
ghost use Rattle.places.specs.Places.{vcd_place, vat_place, base_place, stride_place, cp_place, named_place, cp_accepted};

// The CP registers, where the array bases and the strides begin among them, the BP registers, and the XF words.
pub const COUNT: usize = 60;

pub const BASES: usize = 28;

pub const STRIDES: usize = 44;

pub const BP_COUNT: usize = 256;

pub const XF_COUNT: u32 = 4184;

pub const XF_LENGTH: usize = XF_COUNT as usize;

pub fn vcd_place(group: u8) -> usize
    ensures { result ≡ vcd_place group }
{
    2 + group as usize
}

pub fn vat_place(format: u8, group: u8) -> usize
    ensures { result ≡ vat_place format group }
{
    4 + 3 * format as usize + group as usize
}

// Two sums and two names: a function of the first place would only be the sum.
pub fn base_place(array: u8) -> usize
    ensures { result ≡ base_place array }
{
    BASES + array as usize
}

pub fn stride_place(array: u8) -> usize
    ensures { result ≡ stride_place array }
{
    STRIDES + array as usize
}

// That place as a number, COUNT where the address names none. Bases, and strides right behind them, are tested first.
// A number inside the crate: by a match that gives an Option, a load of a VAT takes a third longer, since the compiler then works the place
// out twice, for the test and for the load.
#[tactic(auto, unfolding(crate::specs::Places::cp_place))]
fn place_or_count(address: u8) -> usize
    ensures { result ≡ cp_place address }
{
    if 0xA0 <= address {
        return if address < 0xC0 {
            base_place(address - 0xA0)
        } else {
            COUNT
        };
    }
    if address < 0x30 {
        return COUNT;
    }
    if address < 0x70 {
        return address as usize / 16 - 3;
    }
    if address % 16 < 8 {
        vat_place(address % 16, address / 16 - 7)
    } else {
        COUNT
    }
}

// The place of the register that a CP load's address names, none where it names none.
pub fn cp_place(address: u8) -> Option<usize>
    ensures { result ≡ named_place address }
{
    let place = place_or_count(address);
    if place < COUNT { Some(place) } else { None }
}

// Whether a CP load to the address is accepted; 20 is, without effect.
#[tactic(auto, unfolding(crate::specs::Places::cp_accepted))]
pub fn cp_accepted(address: u8) -> bool
    ensures { result ≡ cp_accepted address }
{
    (address == 0x20) | cp_place(address).is_some()
}
