//! Where an item is: its folder, and its name there.
ghost use Rattle.std.specs.Prelude.{◌≡◌, [], Some, refl};
ghost use Rattle.std.specs.Ordering.{is_eq};
ghost use Rattle.std.specs.Cmp;
ghost use Rattle.std.specs.Cmp.{eq_by_cmp_equiv, partial_order_from_agreeing_total};
ghost use Rattle.hfs_viewers.specs.Places.{place, place_cmp, place_cmp_total};

use hfs_fields::Name;
use std::cmp::Ordering;

/// The ID of an item's folder, and its name. Places are ordered by the ID and then by name order, so two are equal if the names
/// are the same except for the case of ASCII letters.
#[derive(Clone, Copy)]
pub struct Place {
    /// The ID of the folder.
    pub parent: u32,
    pub name: Name,
}

impl Place {
    /// The least place in a folder, which is no item's.
    pub fn first(parent: u32) -> Place
        ensures { result ≡ place parent [] }
    {
        match Name::of_bytes(&[]) {
            Some(name) => Place { parent, name },
            None => unreachable!(),
        }
    }
}

impl PartialEq for Place {
    ghost eq = { λ x y. is_eq (place_cmp x y) };

    ghost laws = { Cmp.partial_equiv_from_equiv (eq_by_cmp_equiv place_cmp_total) };

    fn eq(&self, other: &Place) -> bool {
        self.cmp(other) == Ordering::Equal
    }
}

impl Eq for Place {
    ghost laws = { eq_by_cmp_equiv place_cmp_total };
}

impl PartialOrd for Place {
    ghost partial_cmp = { λ x y. Some (place_cmp x y) };

    ghost laws = { partial_order_from_agreeing_total place_cmp place_cmp_total (λ x y. refl) (λ x y. refl) };

    fn partial_cmp(&self, other: &Place) -> Option<Ordering> {
        Some(self.cmp(other))
    }
}

impl Ord for Place {
    ghost cmp = { place_cmp };

    ghost total = { place_cmp_total };

    ghost matches_partial_cmp = { λ x y. refl };

    ghost matches_eq = { λ x y. refl };

    fn cmp(&self, other: &Place) -> Ordering {
        match self.parent.cmp(&other.parent) {
            Ordering::Equal => self.name.cmp_folded(&other.name),
            unlike => unlike,
        }
    }
}
