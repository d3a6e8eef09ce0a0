//! Swapping the bytes of numbers with those of an image.

ghost use Rattle.std.specs.Prelude.{◌≡◌, ◌≤◌, ◌<◌, ◌^◌, ◌++◌, length, slice_set, OnOk, IfOk};
ghost use Rattle.hfs_repair.specs.Puts.{puts_from, put_all, put_back, number_puts, puts_of};

use crate::byte_put::BytePut;
use crate::field_value::FieldValue;
use crate::wrong_number::WrongNumber;
use byteorder::{BigEndian, ByteOrder};
use std::alloc::{AllocError, Global};
use std::mem;

/// Adds bytes that go one after the other from a place on.
fn push_bytes(puts: &mut Vec<BytePut>, at: usize, bytes: &[u8]) -> Result<(), AllocError>
    requires low { at < 2 ^ 48 }
    requires few { length bytes.now ≤ 4 }
    ensures { OnOk result (puts.new.items ≡ puts.old.items ++ puts_from at bytes.now) }
{
    for i in 0..bytes.len() {
        puts.push(BytePut {
            at: at + i,
            byte: bytes[i],
        })?;
    }
    Ok(())
}

/// Adds the bytes of one number as it is counted.
fn push_number(puts: &mut Vec<BytePut>, number: &WrongNumber) -> Result<(), AllocError>
    ensures { OnOk result (puts.new.items ≡ puts.old.items ++ number_puts number.now.1) }
{
    match number.value() {
        FieldValue::Short(value) => {
            let mut bytes = [0; 2];
            BigEndian::write_u16(&mut bytes, value);
            push_bytes(puts, number.at(), &bytes)
        }
        FieldValue::Long(value) => {
            let mut bytes = [0; 4];
            BigEndian::write_u32(&mut bytes, value);
            push_bytes(puts, number.at(), &bytes)
        }
    }
}

/// The bytes of numbers as they are counted, each with its place. Fails only when out of memory.
#[tactic(auto, unfolding(crate::specs::Puts::puts_of))]
pub(crate) fn byte_puts(alloc: Global, numbers: &[WrongNumber]) -> Result<Vec<BytePut>, AllocError>
    ensures { IfOk result (λ puts. puts.items ≡ puts_of numbers.now) }
{
    let mut puts = Vec::new(alloc);
    for i in 0..numbers.len() {
        push_number(&mut puts, &numbers[i])?;
    }
    Ok(puts)
}

/// Swaps one byte with an image's; a byte that goes past the image's end stays.
fn exchange_byte(image: &mut [u8], put: &mut BytePut)
    ensures image { image.new ≡ slice_set image.old put.old.at put.old.byte }
    ensures put { put.new.at ≡ put.old.at }
    ensures back { slice_set image.new put.new.at put.new.byte ≡ image.old }
{
    if put.at < image.len() {
        mem::swap(&mut image[put.at], &mut put.byte);
    }
}

/// Writes bytes into an image, one after the other, and keeps the image's old bytes in their place. Takes no memory.
pub fn exchange(image: &mut [u8], puts: &mut [BytePut])
    ensures written { image.new ≡ put_all puts.old image.old }
    ensures kept { put_back puts.new image.new ≡ image.old }
{
    for i in 0..puts.len() {
        exchange_byte(image, &mut puts[i]);
    }
}

/// Writes bytes into an image, last one first. After `exchange`, this restores the image. Takes no memory.
pub fn exchange_back(image: &mut [u8], puts: &[BytePut])
    ensures { image.new ≡ put_back puts.now image.old }
{
    let mut left = puts.len();
    while left > 0 {
        left -= 1;
        let put = puts[left];
        if put.at < image.len() {
            image[put.at] = put.byte;
        }
    }
}
