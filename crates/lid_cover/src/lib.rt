//! Covers: the logic of one cell, as a list of cubes.
#![tactic(auto)]

ghost use Rattle.std.specs.Prelude.{◌≡◌, Bool, List, length};
ghost use Rattle.std.specs.List.{list_any};
ghost use Rattle.lid_cover.specs.Cover.{cover_value, IsCover};
ghost use Rattle.lid_cover.specs.Masks.{packed, is_met};

use lid_base::Items;

/// A cube: values that are asked of some inputs. It is one row of the cover's table in a netlist. Bit
/// j belongs to input j.
#[derive(Clone, Copy, Debug, PartialEq, Eq)]
pub struct Cube {
    /// The inputs that it looks at. No bit at or above the number of inputs is set.
    pub care: u64,
    /// The values that it asks of them. No bit outside `care` is set.
    pub value: u64,
}

/// A cover with up to 64 inputs. A cover without cubes has `on` true: it is the
/// constant 0.
#[derive(Drop)]
pub struct Cover {
    /// The number of inputs, at most 64.
    pub inputs: u32,
    /// The value of the cover where some cube agrees with the inputs.
    pub on: bool,
    pub cubes: Items<Cube>,
}

/// The value of a cover at inputs that are packed into one number: bit j is that of input j, and
/// bits at or above the number of inputs are 0. It takes no memory.
pub fn eval(cover: &Cover, bits: u64) -> bool
    requires { IsCover cover.now }
    ensures { (inputs : List Bool) → length inputs ≡ cover.now.inputs → packed inputs ≡ bits → result ≡ cover_value cover.now inputs }
{
    any_met(cover.cubes.as_slice(), bits) == cover.on
}

/// Whether some cube agrees with packed inputs.
fn any_met(cubes: &[Cube], bits: u64) -> bool
    ensures { result ≡ list_any (is_met bits) cubes.now }
{
    cubes
        .iter()
        .any(|cube| (bits ^ cube.value) & cube.care == 0)
}

#[cfg(test)]
mod tests {
    use super::*;
    use std::alloc::AllocError;

    #[test]
    fn cubes_of_zeros_make_zeros(rt: HostRuntime) -> Result<(), AllocError> {
        let cube = Cube { care: 5, value: 4 };
        let mut cubes = Vec::new(rt.alloc());
        cubes.push(cube)?;
        let cover = Cover {
            inputs: 3,
            on: false,
            cubes: Items::from_vec(cubes),
        };
        for (bits, want) in [(4, false), (6, false), (5, true), (0, true)] {
            assert_eq!(rt; eval(&cover, bits), want, "at {bits}");
        }
        Ok(())
    }
}
