//! The C interface (include/quaythistle.h): one export for each public call, named after the call's crate and the call. None has a
//! `requires`: what C passes within its own rules is answered or refused.
#![tactic(auto)]

ghost use Rattle.std.specs.Prelude.{◌++◌};
ghost use Rattle.quaythistle.specs.Pledges.{Digests, Tags, Matches, Draws, Checks, Proves, Applies, Shapes, Saves, Loads, Answers};
ghost use Rattle.quaythistle.specs.Pledges.{Files, Places, ProvesJointly, AnswersJointly};

use crate::plain::{QtCommand, QtDigest, QtFiling, QtMetadata, QtVerdict};

mod answers;
mod plain;

// C has no Result: each answer has its verdict beside its values, and says how much was written.
#[repr(C)]
#[derive(Clone, Copy)]
pub struct QtDigested {
    pub verdict: QtVerdict,
    pub digest: QtDigest,
}

#[repr(C)]
#[derive(Clone, Copy)]
pub struct QtMatched {
    pub verdict: QtVerdict,
    pub yes: bool,
}

#[repr(C)]
#[derive(Clone, Copy)]
pub struct QtMetadataAnswer {
    pub verdict: QtVerdict,
    pub metadata: QtMetadata,
}

#[repr(C)]
#[derive(Clone, Copy)]
pub struct QtProved {
    pub verdict: QtVerdict,
    pub length: u64,
    pub entries: u64,
}

#[repr(C)]
#[derive(Clone, Copy)]
pub struct QtCounted {
    pub verdict: QtVerdict,
    pub count: u64,
}

#[repr(C)]
#[derive(Clone, Copy)]
pub struct QtSaved {
    pub verdict: QtVerdict,
    pub bytes: [u8; 39],
}

#[repr(C)]
#[derive(Clone, Copy)]
pub struct QtAnswer {
    pub verdict: QtVerdict,
    pub tag: QtDigest,
    pub metadata: QtMetadata,
}

// Tags of 32 bytes each; to C they are as many digests.
#[repr(C)]
#[derive(Clone, Copy)]
pub struct QtJointAnswer {
    pub verdict: QtVerdict,
    pub number: u64,
    pub tags: [u8; 1024],
    pub metadata: QtMetadata,
}

// SHA-256 of a message.
#[unsafe(no_mangle)]
pub extern "C" fn qt_sha256_digest(message: &[u8]) -> QtDigested
    ensures { Digests message.now result }
{
    sha256::digest(message).into()
}

// SHA-256 of a message in two parts.
#[unsafe(no_mangle)]
pub extern "C" fn qt_sha256_digest_joined(first: &[u8], second: &[u8]) -> QtDigested
    ensures { Digests (first.now ++ second.now) result }
{
    sha256::digest_joined(first, second).into()
}

// A block's tag.
#[unsafe(no_mangle)]
pub extern "C" fn qt_labels_tag(time: u32, readings: &[u8]) -> QtDigested
    ensures { Tags time readings.now result }
{
    labels::tag(time, readings).into()
}

// Whether a tag is that of a block.
#[unsafe(no_mangle)]
pub extern "C" fn qt_labels_matches(tag: QtDigest, time: u32, readings: &[u8]) -> QtMatched
    ensures { Matches tag time readings.now result }
{
    labels::matches(tag.bytes, time, readings).into()
}

// The height drawn from a coin word.
#[unsafe(no_mangle)]
pub extern "C" fn qt_labels_height(word: u16) -> u8
    ensures { Draws word result }
{
    labels::height(word)
}

// The metadata of an image.
#[unsafe(no_mangle)]
pub extern "C" fn qt_store_check(image: &[u8]) -> QtMetadataAnswer
    ensures { Checks image.now result }
{
    store::check(image).into()
}

// The proof of a position, from a place of the buffer on.
#[unsafe(no_mangle)]
pub extern "C" fn qt_store_prove(
    image: &[u8],
    position: u64,
    buffer: &mut [u8],
    place: u64,
) -> QtProved
    ensures { Proves image.now position buffer.old place result buffer.new }
{
    store::prove(image, position, buffer, place).into()
}

// A command made on the image in its buffer.
#[unsafe(no_mangle)]
pub extern "C" fn qt_store_apply(image: &mut [u8], command: QtCommand) -> QtCounted
    ensures { Applies image.old command result image.new }
{
    store::apply(image, command.into()).into()
}

// For each block the number of entries in the path to it.
#[unsafe(no_mangle)]
pub extern "C" fn qt_shapes_shape(image: &[u8], entries: &mut [u64]) -> QtCounted
    ensures { Shapes image.now entries.old result entries.new }
{
    shapes::shape(image, entries).into()
}

// Metadata as 39 bytes.
#[unsafe(no_mangle)]
pub extern "C" fn qt_gateway_save(metadata: QtMetadata) -> QtSaved
    ensures { Saves metadata result }
{
    gateway::saved::save(metadata.into()).into()
}

// Metadata from 39 bytes.
#[unsafe(no_mangle)]
pub extern "C" fn qt_gateway_load(saved: &[u8]) -> QtMetadataAnswer
    ensures { Loads saved.now result }
{
    gateway::saved::load(saved).into()
}

// The gateway's check of a command with its proofs.
#[unsafe(no_mangle)]
pub extern "C" fn qt_gateway_check(
    metadata: QtMetadata,
    command: QtCommand,
    first: &[u8],
    second: &[u8],
) -> QtAnswer
    ensures { Answers metadata command first.now second.now result }
{
    gateway::check(metadata.into(), command.into(), first, second).into()
}

// A block filed by its time: the new one's readings, those of the blocks at the place and after it, and the two proofs.
#[unsafe(no_mangle)]
pub extern "C" fn qt_filer_file(
    metadata: QtMetadata,
    filing: QtFiling,
    readings: &[u8],
    left: &[u8],
    right: &[u8],
    first: &[u8],
    second: &[u8],
) -> QtAnswer
    ensures { Files metadata filing readings.now left.now right.now first.now
        second.now result }
{
    filer::file(
        metadata.into(),
        filing.into(),
        readings,
        left,
        right,
        first,
        second,
    )
    .into()
}

// The place for a time, from an archive's times.
#[unsafe(no_mangle)]
pub extern "C" fn qt_times_place(times: &[u32], time: u32) -> u64
    ensures { Places times.now time result }
{
    times::place(times, time)
}

// The joint proof of a set of positions, from a place of the buffer on.
#[unsafe(no_mangle)]
pub extern "C" fn qt_jointstore_prove(
    image: &[u8],
    positions: &[u64],
    buffer: &mut [u8],
    place: u64,
) -> QtProved
    ensures { ProvesJointly image.now positions.now buffer.old place result buffer.new }
{
    jointstore::prove(image, positions, buffer, place).into()
}

// The gateway's check of a joint proof.
#[unsafe(no_mangle)]
pub extern "C" fn qt_jointgateway_check(
    metadata: QtMetadata,
    positions: &[u64],
    proof: &[u8],
) -> QtJointAnswer
    ensures { AnswersJointly metadata positions.now proof.now result }
{
    jointgateway::check(metadata.into(), positions, proof).into()
}
