// What the attributes of a descriptor weigh: the length of a vertex, and where its attributes start.
ghost use Rattle.layout.specs.Inner.{ForeOf, TexturesOf};

use crate::Layout;
use crate::parts::{Fore, Textures, weigh_fore, weigh_textures};
use fields::Descriptor;
use fields::attributes::{
    COLOUR0, COLOUR1, COUNT, NORMAL, POSITION, TEXTURE0, TEXTURE1, TEXTURE2, TEXTURE3, TEXTURE4,
    TEXTURE5, TEXTURE6, TEXTURE7,
};
use refusal::Reason;

// A descriptor, and the bytes of its attributes that are no matrices.
#[derive(Clone, Copy)]
pub struct Weights {
    pub d: Descriptor,
    pub fore: Fore,
    pub textures: Textures,
    ghost fore_is: { ForeOf d fore },
    ghost textures_are: { TexturesOf d textures },
}

impl Weights {
    ghost use Rattle.std.specs.Prelude.{◌≡◌, [], ◌∷◌, ◌≤◌};
    ghost use Rattle.laws.specs.Values.{up_to};
    ghost use Rattle.layout.specs.Sizes.{size_of, offset_of};
    ghost use Rattle.layout.specs.Answers.{meaning, refusal_of, Measured, LaidAs};

    // Inlined, so that a descriptor is not copied again on the way.
    #[inline(always)]
    pub fn of(d: Descriptor) -> Weights
        ensures { result.d ≡ d }
    {
        let fore = weigh_fore(d);
        let textures = weigh_textures(d, fore.unknown);
        Weights { d, fore, textures }
    }

    // Whether the layout is refused: by 9, then 10.
    #[tactic(auto, using(crate::proofs::Meanings::refused_absent, crate::proofs::Meanings::refused_unknown, crate::proofs::Meanings::accepted), unfolding(fields::specs::Fields::mode_of, fields::specs::Fields::bits_at, fields::specs::Fields::modes))]
    pub fn check(&self) -> Result<(), Reason>
        ensures { meaning result ≡ refusal_of self.now.d ∷ [] }
    {
        if (self.d.vcd0 >> 9) % 4 == 0 {
            return Err(Reason::PositionAbsent);
        }
        if self.textures.unknown {
            return Err(Reason::UnknownFormat);
        }
        Ok(())
    }

    // The bytes of the first k matrices, one for each bit that is set.
    fn matrices(&self, k: usize) -> u32
        requires { k ≤ 9 }
        ensures { result ≡ offset_of self.now.d k }
    {
        (self.d.vcd0 % (1 << k)).count_ones()
    }

    // The bytes of all attributes, added pairwise, so that no addition waits for eleven others.
    #[tactic(auto, using(crate::proofs::Bounds::size_small), unfolding(crate::specs::Sizes::offset_of))]
    fn total(&self) -> u32
        ensures { result ≡ offset_of self.now.d 21 }
    {
        let fore = self.fore;
        let textures = self.textures;
        let near = (fore.position + fore.normal) + (fore.colour0 + fore.colour1) + fore.texture0;
        let low = (textures.texture1 + textures.texture2) + (textures.texture3 + textures.texture4);
        let high = (textures.texture5 + textures.texture6) + textures.texture7;
        self.matrices(POSITION) + (near + (low + high))
    }

    // The length of a vertex, or the reason why it has none: 9, then 10.
    pub fn length(&self) -> Result<u32, Reason>
        ensures { Measured self.now.d result }
    {
        self.check()?;
        Ok(self.total())
    }

    // The bytes before attribute k; before 21 they are all. Positions, which are asked for most, stand after the matrices alone.
    // By name: there is no array of sizes to sum (see `Fore`).
    #[tactic(auto, using(crate::proofs::Bounds::size_small), unfolding(crate::specs::Sizes::offset_of))]
    pub fn before(&self, k: usize) -> u32
        requires { k ≤ 21 }
        ensures { result ≡ offset_of self.now.d k }
    {
        if k < POSITION {
            return self.matrices(k);
        }
        let at9 = self.matrices(POSITION);
        if k == POSITION {
            return at9;
        }
        let fore = self.fore;
        let textures = self.textures;
        let at10 = at9 + fore.position;
        let at11 = at10 + fore.normal;
        let at12 = at11 + fore.colour0;
        let at13 = at12 + fore.colour1;
        let at14 = at13 + fore.texture0;
        let at15 = at14 + textures.texture1;
        let at16 = at15 + textures.texture2;
        let at17 = at16 + textures.texture3;
        let at18 = at17 + textures.texture4;
        let at19 = at18 + textures.texture5;
        let at20 = at19 + textures.texture6;
        match k {
            NORMAL => at10,
            COLOUR0 => at11,
            COLOUR1 => at12,
            TEXTURE0 => at13,
            TEXTURE1 => at14,
            TEXTURE2 => at15,
            TEXTURE3 => at16,
            TEXTURE4 => at17,
            TEXTURE5 => at18,
            TEXTURE6 => at19,
            TEXTURE7 => at20,
            _ => at20 + textures.texture7,
        }
    }

    // The bytes of each attribute: 21 items, since there is no array to copy them from (see `Fore`).
    #[tactic(auto, using(crate::proofs::Bounds::size_small))]
    fn sizes(&self) -> [u8; COUNT]
        ensures { result ≡ up_to (size_of self.now.d) 21 }
    {
        let vcd = self.d.vcd0;
        let fore = self.fore;
        let textures = self.textures;
        [
            ((vcd >> 0) % 2) as u8,
            ((vcd >> 1) % 2) as u8,
            ((vcd >> 2) % 2) as u8,
            ((vcd >> 3) % 2) as u8,
            ((vcd >> 4) % 2) as u8,
            ((vcd >> 5) % 2) as u8,
            ((vcd >> 6) % 2) as u8,
            ((vcd >> 7) % 2) as u8,
            ((vcd >> 8) % 2) as u8,
            fore.position as u8,
            fore.normal as u8,
            fore.colour0 as u8,
            fore.colour1 as u8,
            fore.texture0 as u8,
            textures.texture1 as u8,
            textures.texture2 as u8,
            textures.texture3 as u8,
            textures.texture4 as u8,
            textures.texture5 as u8,
            textures.texture6 as u8,
            textures.texture7 as u8,
        ]
    }

    // The bytes of each attribute, and their sums.
    pub fn lay_out(&self) -> Layout
        ensures { LaidAs (offset_of self.now.d 21) (up_to (size_of self.now.d) 21) (up_to (offset_of self.now.d) 21) result }
    {
        let sizes = self.sizes();
        let mut offsets = [0; COUNT];
        let mut length = 0;
        for k in 0..COUNT {
            offsets[k] = length as u8;
            length += u32::from(sizes[k]);
        }
        Layout {
            length,
            sizes,
            offsets,
        }
    }
}
