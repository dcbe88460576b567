//! The cells of stations.

ghost use Rattle.std.specs.Prelude.{◌≡◌, ◌≤◌, ◌<◌, ◌+◌, ◌∷◌, [], OnOk, flat_map, length, Some, slice_get};
ghost use Rattle.lid_base.specs.Each.{from_each};
ghost use Rattle.lid_emit_circuit.specs.Plans.{CircuitPlan};
ghost use Rattle.lid_emit_circuit.specs.Wires.{level, grown, place, moved};
ghost use Rattle.lid_emit_cells.specs.declared.station.Bit.{Bit};
ghost use Rattle.lid_emit_circuit.specs.Lists.{bit_wires, station_wires};
ghost use Rattle.lid_emit_cells.specs.Drafts.{with_wires};
ghost use Rattle.lid_emit_cells.specs.Matches.{IsStationOf};

use crate::pen::Pen;
use crate::wire::Wire;
use lid_base::Items;
use lid_cover::Cube;
use std::alloc::AllocError;

/// A bit of the tokens of a station.
#[derive(Clone, Copy)]
pub struct Bit {
    /// With which bit the station starts.
    pub begins: bool,
    /// The bit that is put.
    pub put: Wire,
}

/// A station: who fills and drains it, how many tokens it holds at most and at first, and the bits of
/// its tokens.
#[derive(Drop)]
pub struct Station {
    pub filler: u32,
    pub drainer: u32,
    pub capacity: u32,
    pub first: u32,
    pub bits: Items<Bit>,
}

impl Pen<'_> {
    /// Pushes the level of a station after level i.
    fn push_level(&mut self, s: u32, station: &Station, i: u32) -> Result<(), AllocError>
        requires within { i ≤ station.now.capacity }
        requires small { station.now.capacity ≤ 16 }
        ensures { OnOk result ((q : CircuitPlan) → IsStationOf q s station.now → self.new ≡ with_wires q self.old (level s (i + 1) ∷ [])) }
    {
        let wire = Wire::Level(s, i + 1);
        if i == station.capacity {
            return self.push_constant(wire, false);
        }
        self.push_latch(wire, i < station.first, Wire::Grown(s, i + 1))
    }

    /// Pushes the levels of a station, of which it always reaches the lowest.
    fn push_levels(&mut self, s: u32, station: &Station) -> Result<(), AllocError>
        requires { station.now.capacity ≤ 16 }
        ensures { OnOk result ((q : CircuitPlan) → IsStationOf q s station.now
            → self.new ≡ with_wires q self.old (from_each (level s) 0 (station.now.capacity + 2))) }
    {
        self.push_constant(Wire::Level(s, 0), true)?;
        for i in 0..station.capacity + 1 {
            self.push_level(s, station, i)?;
        }
        Ok(())
    }

    /// Pushes what the level after level i takes.
    fn push_grown(&mut self, s: u32, station: &Station, i: u32) -> Result<(), AllocError>
        requires within { i < station.now.capacity }
        requires small { station.now.capacity ≤ 16 }
        ensures { OnOk result ((q : CircuitPlan) → IsStationOf q s station.now → self.new ≡ with_wires q self.old (grown s (i + 1) ∷ [])) }
    {
        // drained and filled: its own level; drained alone: the next; filled alone: the one before; neither: its own
        let cubes = [
            Cube {
                care: 11,
                value: 11,
            },
            Cube {
                care: 19,
                value: 17,
            },
            Cube { care: 7, value: 6 },
            Cube { care: 11, value: 8 },
        ];
        let reads = [
            Wire::Fire(station.drainer),
            Wire::Fire(station.filler),
            Wire::Level(s, i),
            Wire::Level(s, i + 1),
            Wire::Level(s, i + 2),
        ];
        self.push_gate(Wire::Grown(s, i + 1), &reads, &cubes)
    }

    /// Pushes what the levels of a station take.
    fn push_growns(&mut self, s: u32, station: &Station) -> Result<(), AllocError>
        requires { station.now.capacity ≤ 16 }
        ensures { OnOk result ((q : CircuitPlan) → IsStationOf q s station.now
            → self.new ≡ with_wires q self.old (from_each (grown s) 1 station.now.capacity)) }
    {
        for i in 0..station.capacity {
            self.push_grown(s, station, i)?;
        }
        Ok(())
    }

    /// Pushes bit j of the token in place i of a station.
    fn push_place(
        &mut self,
        s: u32,
        station: &Station,
        i: u32,
        j: u32,
        bit: Bit,
    ) -> Result<(), AllocError>
        requires within { i ≤ station.now.capacity }
        requires bit { slice_get station.now.bits j ≡ Some bit }
        ensures { OnOk result ((q : CircuitPlan) → IsStationOf q s station.now → self.new ≡ with_wires q self.old (place s i j ∷ [])) }
    {
        let wire = Wire::Place(s, i, j);
        if i == station.capacity {
            return self.push_constant(wire, false);
        }
        self.push_latch(wire, bit.begins, Wire::Moved(s, i, j))
    }

    /// Pushes what bit j of the token in place i of a station becomes. Drained: the bit of the next place where a
    /// token stands there, else what is put. Not drained: its own where a token stands here, else what is put.
    fn push_moved(
        &mut self,
        s: u32,
        station: &Station,
        i: u32,
        j: u32,
        bit: Bit,
    ) -> Result<(), AllocError>
        requires within { i < station.now.capacity }
        requires small { station.now.capacity ≤ 16 }
        requires bit { slice_get station.now.bits j ≡ Some bit }
        ensures { OnOk result ((q : CircuitPlan) → IsStationOf q s station.now → self.new ≡ with_wires q self.old (moved s i j ∷ [])) }
    {
        let cubes = [
            Cube {
                care: 25,
                value: 25,
            },
            Cube {
                care: 41,
                value: 33,
            },
            Cube { care: 7, value: 6 },
            Cube {
                care: 35,
                value: 32,
            },
        ];
        let reads = [
            Wire::Fire(station.drainer),
            Wire::Level(s, i + 1),
            Wire::Place(s, i, j),
            Wire::Level(s, i + 2),
            Wire::Place(s, i + 1, j),
            bit.put,
        ];
        self.push_gate(Wire::Moved(s, i, j), &reads, &cubes)
    }

    /// Pushes bit j of all places of a station, and what becomes of it.
    fn push_bit(&mut self, s: u32, station: &Station, j: u32, bit: Bit) -> Result<(), AllocError>
        requires small { station.now.capacity ≤ 16 }
        requires bit { slice_get station.now.bits j ≡ Some bit }
        ensures { OnOk result ((q : CircuitPlan) → IsStationOf q s station.now → self.new ≡ with_wires q self.old (bit_wires q s j)) }
    {
        for i in 0..station.capacity + 1 {
            self.push_place(s, station, i, j, bit)?;
        }
        for k in 0..station.capacity {
            self.push_moved(s, station, k, j, bit)?;
        }
        Ok(())
    }

    /// Pushes all bits of a station.
    fn push_bits(&mut self, s: u32, station: &Station) -> Result<(), AllocError>
        requires small { station.now.capacity ≤ 16 }
        requires few { length station.now.bits ≤ 31 }
        ensures { OnOk result ((q : CircuitPlan) → IsStationOf q s station.now
            → self.new ≡ with_wires q self.old (flat_map (bit_wires q s) (from_each (λ j. j) 0 (length station.now.bits)))) }
    {
        for j in 0..station.bits.len() {
            let bit = station.bits.as_slice()[j];
            self.push_bit(s, station, j as u32, bit)?;
        }
        Ok(())
    }

    /// Pushes all cells of a station.
    pub(crate) fn push_station(&mut self, s: u32, station: &Station) -> Result<(), AllocError>
        requires small { station.now.capacity ≤ 16 }
        requires few { length station.now.bits ≤ 31 }
        ensures { OnOk result ((q : CircuitPlan) → IsStationOf q s station.now → self.new ≡ with_wires q self.old (station_wires q s)) }
    {
        self.push_levels(s, station)?;
        self.push_growns(s, station)?;
        self.push_bits(s, station)
    }
}
