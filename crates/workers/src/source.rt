//! Where cubes come from, and where they go.

ghost use Rattle.std.specs.Prelude.{◌≡◌};

use steal::Supply;

/// Where a worker's cubes come from, and where they go.
pub trait Cubes {
    ghost use Rattle.steal.specs.Supplies.{Deques};

    /// Which deques these are. No call changes that.
    ghost deques: { Self → Deques };

    /// The next cube, by the number of its leaf; none where there is none now.
    fn take(&mut self) -> Option<u32>
        ensures deques { Self.deques self.new ≡ Self.deques self.old };

    /// Puts a cube in; it comes back where there is no room.
    fn put(&mut self, cube: u32) -> Result<(), u32>
        ensures deques { Self.deques self.new ≡ Self.deques self.old };
}

impl Cubes for Supply {
    ghost use Rattle.steal.specs.Supplies.{deques_of};

    ghost deques = { deques_of };

    fn take(&mut self) -> Option<u32> {
        self.take()
    }

    fn put(&mut self, cube: u32) -> Result<(), u32> {
        self.put(cube)
    }
}
