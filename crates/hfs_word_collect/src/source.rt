//! Files in which volumes lie.
ghost use Rattle.std.specs.Prelude.{◌≡◌, List, ℕ, IfErr, IfOk};
ghost use Rattle.hfs_source.specs.Images.{AllFail, FailsWhere, OfEach};

use hfs_bag::{ImagePart, PickedImage};
use hfs_image::SeenImage;
use hfs_source::{BlocksOf, PlacedBytes, SparseFault};

/// A sound volume that was opened in a part of an image.
pub type OpenedPart<S, K> = SeenImage<BlocksOf<ImagePart<S, K>>>;

/// A file that can be opened any number of times, each time to be read from its beginning. For proofs, it keeps what was read by
/// openings that were let go, and whether it was given up.
pub trait ImageFile<S: PlacedBytes, K: PickedImage> {
    /// The images consistent with the bytes read in this way.
    ghost Holds: { Self → List ℕ → Type 0 };

    /// It can't be opened, or not be read as far as needed; only giving it up makes it so.
    ghost IsUnread: { Self → Type 0 };

    /// There is room to note what was read by one more opening.
    ghost HasRoom: { Self → Type 0 };

    /// Where a read of an opening may fail: from which place on, and for how many bytes. If it can't be opened, any may.
    ghost Fails: { Self → ℕ → ℕ → Type 0 };

    /// Opens the file, and notes what is read for that. Errors: it can't be opened, memory was refused.
    fn open(&mut self) -> Result<S, SparseFault>
        ensures room { IfOk result (λ _. HasRoom self.new) }
        ensures noted { IfOk result (λ source. OfEach (Holds self.new) (S.Holds source)) }
        ensures fails { IfOk result (λ source. FailsWhere (S.Fails source) (Fails self.old)) }
        ensures failed { IfErr result (λ fault. fault ≡ SparseFault.ReadFailed
            → AllFail (Fails self.old)) }
        ensures later { FailsWhere (Fails self.new) (Fails self.old) }
        ensures unread { IsUnread self.new → IsUnread self.old }
        ensures held { OfEach (Holds self.new) (Holds self.old) };

    /// Notes what was read by an opening that is let go.
    fn note(&mut self, source: &S)
        requires { HasRoom self.old }
        ensures noted { OfEach (Holds self.new) (S.Holds source.now) }
        ensures later { FailsWhere (Fails self.new) (Fails self.old) }
        ensures unread { IsUnread self.new → IsUnread self.old }
        ensures held { OfEach (Holds self.new) (Holds self.old) };

    /// Notes what was read by an opening in which a volume was opened, which is let go with it.
    fn note_volume(&mut self, image: &OpenedPart<S, K>)
        requires { HasRoom self.old }
        ensures noted { OfEach (Holds self.new) (S.Holds image.now.bytes.source) }
        ensures later { FailsWhere (Fails self.new) (Fails self.old) }
        ensures unread { IsUnread self.new → IsUnread self.old }
        ensures held { OfEach (Holds self.new) (Holds self.old) };

    /// Notes that it can't be opened, or not be read as far as needed.
    fn give_up(&mut self)
        ensures unread { IsUnread self.new }
        ensures later { FailsWhere (Fails self.new) (Fails self.old) }
        ensures held { OfEach (Holds self.new) (Holds self.old) };
}
