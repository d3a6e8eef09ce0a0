//! The rows of an image in memory, as text.

use crate::expected::Expected;
use crate::stored::{facts_of, rows_of};
use hfs_fixtures::one_file_image;
use hfs_word_collect::{Form, ImageCounts, TextTaker, write_image};
use std::alloc::Global;
use std::cell::Cell;
use std::test::Fail;

/// The lines of the volume `D` with only the file `f`.
const LINES: &str = concat!(
    "{\"table\":\"image\",\"path\":\"one.img\",\"bytes\":32768,\"sha256\":\"b3ac4394805586543f978b592720fc9462bb9928bb69788932ca20fedab368ac\",\"program\":\"a test\"}\n",
    "{\"table\":\"volume\",\"image_path\":\"one.img\",\"image_sha256\":\"b3ac4394805586543f978b592720fc9462bb9928bb69788932ca20fedab368ac\",\"number\":1,\"how\":\"bare\",\"first_byte\":0,\"bytes\":32768,\"name\":\"D\",\"created\":null,\"modified\":null,\"backup\":null,\"blocks\":58,\"block_bytes\":512,\"free_blocks\":46,\"verdict\":\"sound\"}\n",
    "{\"table\":\"item\",\"image_path\":\"one.img\",\"image_sha256\":\"b3ac4394805586543f978b592720fc9462bb9928bb69788932ca20fedab368ac\",\"volume_number\":1,\"number\":0,\"path\":\"D\",\"bag_path\":\"\",\"kind\":\"folder\",\"cnid\":2,\"parent\":1,\"type\":null,\"creator\":null,\"flags\":\"0000\",\"locked\":null,\"file_id\":null,\"created\":null,\"modified\":null,\"backup\":null,\"items\":1,\"data_bytes\":null,\"resource_bytes\":null,\"finder\":\"0000000000000000000000000000000000000000000000000000000000000000\",\"data_sha256\":null,\"resource_sha256\":null,\"data_verdict\":null,\"resource_verdict\":null}\n",
    "{\"table\":\"item\",\"image_path\":\"one.img\",\"image_sha256\":\"b3ac4394805586543f978b592720fc9462bb9928bb69788932ca20fedab368ac\",\"volume_number\":1,\"number\":1,\"path\":\"D:f\",\"bag_path\":\"f\",\"kind\":\"file\",\"cnid\":16,\"parent\":2,\"type\":\"\\\\00\\\\00\\\\00\\\\00\",\"creator\":\"\\\\00\\\\00\\\\00\\\\00\",\"flags\":\"0000\",\"locked\":0,\"file_id\":0,\"created\":null,\"modified\":null,\"backup\":null,\"items\":null,\"data_bytes\":2000,\"resource_bytes\":0,\"finder\":\"0000000000000000000000000000000000000000000000000000000000000000\",\"data_sha256\":\"63d8d35920be456776a35578ade76725c687821ad55d4bb950225fed2d33e6cb\",\"resource_sha256\":\"e3b0c44298fc1c149afbf4c8996fb92427ae41e4649b934ca495991b7852b855\",\"data_verdict\":\"whole\",\"resource_verdict\":\"whole\"}\n",
    "{\"table\":\"end\",\"image_path\":\"one.img\",\"image_sha256\":\"b3ac4394805586543f978b592720fc9462bb9928bb69788932ca20fedab368ac\",\"whole\":1}\n",
);

/// How much it holds.
const COUNTS: ImageCounts = ImageCounts {
    volumes: 1,
    refused: 0,
    files: 1,
    damaged: 0,
    wrong_sums: 0,
};

/// The result of writing the rows of an image, and how many bytes of the lines came.
fn written(alloc: Global, image: &[u8]) -> (Option<ImageCounts>, usize) {
    let taken = Cell::new(0);
    let writer = Expected {
        text: LINES.as_bytes(),
        taken: &taken,
    };
    let facts = facts_of("one.img");
    let mut taker = TextTaker::new(alloc, writer, Form::All);
    let mut rows = rows_of(alloc, &facts, image);
    let counts = write_image(&mut taker, &mut rows).unwrap_or(None);
    (counts, taken.get())
}

#[test]
fn rows_of_an_image_in_memory(rt: HostRuntime) -> Result<(), Fail> {
    let image = one_file_image(rt.alloc())?;
    let (counts, count) = written(rt.alloc(), &image);
    assert!(rt; count == LINES.len(), "{count} bytes");
    assert!(rt; counts == Some(COUNTS));
    Ok(())
}
