//! What is said of a file, as fields. `Failed` where the sink fails; a beginning of the text was written then.

ghost use Rattle.std.specs.Prelude.{◌≡◌};
ghost use Rattle.pickle_io.specs.Device.{Writes};
ghost use Rattle.json_lines.specs.Line.{fields_text, ◌⊕◌};
ghost use Rattle.archive_script.specs.SingleText.{packing_word};
ghost use Rattle.gate_json.specs.VerdictFields.{array_fields, held_fields, no_tar_fields, single_fields, packing_fields, address_fields, inside_fields, no_packed_fields, no_archive_fields, stream_fields, size_words, rest_words, checksum_words, unopened_fields, array_fault_fields, fault_fields, member_fields, judged_fields};

use crate::fields::{write_broken_words, write_member, write_packing, write_placed};
use crate::verdict::{write_verdict, write_verdict_behind};
use archive_gate::{ArrayFault, Fault};
use archive_script::{
    Judged, Single, array_sentence, is_too_large, packed_sentence, packing_word, single_status,
    stream_sentence, tar_sentence,
};
use packed_stream::Packing;
use pickle_gate::Verdict;
use pickle_io::{Failed, Page};
use pickle_json::write_how;
use pickle_script::verdict_status;
use zip_open::Broken;

/// Writes the first rule that an array breaks, and where.
#[tactic(auto, unfolding(crate::specs::VerdictFields::array_fields))]
fn write_array<P: Page>(refusal: npy_form::Refusal, page: &mut P) -> Result<(), Failed>
    ensures { Writes (P.told page.old) (P.told page.new) result (fields_text (array_fields refusal)) }
{
    write_placed(
        "not_in_form",
        refusal.offset as u64,
        array_sentence(refusal.why),
        page,
    )
}

/// Writes what is said of the pickle behind the header of an array, and that it is meant, where it does not pass.
fn write_held<P: Page>(verdict: Verdict, line: &[u8], page: &mut P) -> Result<(), Failed>
    ensures { Writes (P.told page.old) (P.told page.new) result (fields_text (held_fields line.now verdict)) }
{
    if verdict_status(verdict) == 0 {
        write_verdict(verdict, line, page)
    } else {
        write_verdict_behind(verdict, line, page)
    }
}

/// Writes the first rule that a tar archive breaks, and where.
#[tactic(auto, unfolding(crate::specs::VerdictFields::no_tar_fields))]
pub(crate) fn write_no_tar<P: Page>(
    refusal: tar_archive::Refusal,
    page: &mut P,
) -> Result<(), Failed>
    ensures { Writes (P.told page.old) (P.told page.new) result (fields_text (no_tar_fields refusal)) }
{
    write_placed(
        "not_in_form",
        refusal.offset as u64,
        tar_sentence(refusal.why),
        page,
    )
}

/// Writes what is said of a file that is neither packed nor a zip archive.
fn write_single<P: Page>(single: &Single, page: &mut P) -> Result<(), Failed>
    ensures { Writes (P.told page.old) (P.told page.new) result (fields_text (single_fields single.now)) }
{
    match single {
        Single::Pickle(verdict, line) => write_verdict(*verdict, line.as_slice(), page),
        Single::Numbers => write_how("passes", page),
        Single::NoArray(refusal) => write_array(*refusal, page),
        Single::Behind(verdict, line) => write_held(*verdict, line.as_slice(), page),
        Single::Nested => write_how("container", page),
        Single::Tar => write_how("passes", page),
        Single::NoTar(refusal) => write_no_tar(*refusal, page),
        Single::Unclear => write_how("unclear_names", page),
        Single::TwoKinds => write_how("two_kinds", page),
        Single::Member(name, fault, line) => {
            write_failing(name.as_slice(), *fault, line.as_slice(), page)
        }
    }
}

/// Writes the address of what a packed file opens to.
fn write_address<P: Page>(packing: Packing, single: &Single, page: &mut P) -> Result<(), Failed>
    ensures { Writes (P.told page.old) (P.told page.new) result (fields_text (address_fields packing single.now)) }
{
    match single {
        Single::Pickle(_, _) => write_member(packing_word(packing), page),
        Single::Numbers => write_member(packing_word(packing), page),
        Single::NoArray(_) => write_member(packing_word(packing), page),
        Single::Behind(_, _) => write_member(packing_word(packing), page),
        Single::Nested => write_member(packing_word(packing), page),
        Single::Tar => write_member(packing_word(packing), page),
        Single::NoTar(_) => write_member(packing_word(packing), page),
        Single::Unclear => write_member(packing_word(packing), page),
        Single::TwoKinds => write_member(packing_word(packing), page),
        Single::Member(_, _, _) => write_packing(packing_word(packing), page),
    }
}

/// Writes what is said of what a packed file opens to, with its address.
fn write_addressed<P: Page>(packing: Packing, single: &Single, page: &mut P) -> Result<(), Failed>
    ensures { Writes (P.told page.old) (P.told page.new) result (fields_text (address_fields packing single.now ⊕ single_fields single.now)) }
{
    write_address(packing, single, page)?;
    write_single(single, page)
}

/// Writes what is said of a packed file.
fn write_inside<P: Page>(packing: Packing, single: &Single, page: &mut P) -> Result<(), Failed>
    ensures { Writes (P.told page.old) (P.told page.new) result (fields_text (inside_fields packing single.now)) }
{
    if single_status(single) == 0 {
        write_single(single, page)
    } else {
        write_addressed(packing, single, page)
    }
}

/// Writes why a packed file does not open.
pub(crate) fn write_no_packed<P: Page>(
    refusal: packed_stream::Refusal,
    page: &mut P,
) -> Result<(), Failed>
    ensures { Writes (P.told page.old) (P.told page.new) result (fields_text (no_packed_fields refusal)) }
{
    if is_too_large(refusal.why) {
        write_how("too_large", page)
    } else {
        write_placed(
            "not_in_form",
            refusal.offset as u64,
            packed_sentence(refusal.why),
            page,
        )
    }
}

/// Writes the first rule that an archive breaks, and where.
#[tactic(auto, unfolding(crate::specs::VerdictFields::no_archive_fields))]
pub(crate) fn write_no_archive<P: Page>(
    refusal: zip_archive::Refusal,
    page: &mut P,
) -> Result<(), Failed>
    ensures { Writes (P.told page.old) (P.told page.new) result (fields_text (no_archive_fields refusal)) }
{
    write_placed("not_in_form", refusal.offset, refusal.why.sentence(), page)
}

/// Writes why a packed member is no stream of deflate, and where.
#[tactic(auto, unfolding(crate::specs::VerdictFields::stream_fields))]
fn write_stream<P: Page>(refusal: inflate::Refusal, page: &mut P) -> Result<(), Failed>
    ensures { Writes (P.told page.old) (P.told page.new) result (fields_text (stream_fields refusal)) }
{
    write_placed(
        "broken",
        refusal.offset as u64,
        stream_sentence(refusal.why),
        page,
    )
}

/// Words of a line.
#[tactic(auto, unfolding(crate::specs::VerdictFields::size_words))]
fn size_words() -> &'static str
    ensures { result.now ≡ size_words }
{
    "fewer bytes than are told"
}

/// Words of a line.
#[tactic(auto, unfolding(crate::specs::VerdictFields::rest_words))]
fn rest_words() -> &'static str
    ensures { result.now ≡ rest_words }
{
    "bytes behind the stream"
}

/// Words of a line.
#[tactic(auto, unfolding(crate::specs::VerdictFields::checksum_words))]
fn checksum_words() -> &'static str
    ensures { result.now ≡ checksum_words }
{
    "another checksum than is told"
}

/// Writes why a member does not open.
fn write_unopened<P: Page>(broken: Broken, page: &mut P) -> Result<(), Failed>
    ensures { Writes (P.told page.old) (P.told page.new) result (fields_text (unopened_fields broken)) }
{
    match broken {
        Broken::Stream(refusal) => write_stream(refusal, page),
        Broken::Size => write_broken_words(size_words(), page),
        Broken::Rest => write_broken_words(rest_words(), page),
        Broken::Checksum => write_broken_words(checksum_words(), page),
    }
}

/// Writes why an array does not pass.
fn write_array_fault<P: Page>(fault: ArrayFault, line: &[u8], page: &mut P) -> Result<(), Failed>
    ensures { Writes (P.told page.old) (P.told page.new) result (fields_text (array_fault_fields line.now fault)) }
{
    match fault {
        ArrayFault::Form(refusal) => write_array(refusal, page),
        ArrayFault::Refused(verdict) => write_verdict_behind(verdict, line, page),
    }
}

/// Writes why a member does not pass.
fn write_fault<P: Page>(fault: Fault, line: &[u8], page: &mut P) -> Result<(), Failed>
    ensures { Writes (P.told page.old) (P.told page.new) result (fields_text (fault_fields line.now fault)) }
{
    match fault {
        Fault::Broken(broken) => write_unopened(broken, page),
        Fault::Archive => write_how("archive", page),
        Fault::Refused(verdict) => write_verdict(verdict, line, page),
        Fault::Array(fault) => write_array_fault(fault, line, page),
    }
}

/// Writes the name of the first member that does not pass, and why.
fn write_failing<P: Page>(
    name: &[u8],
    fault: Fault,
    line: &[u8],
    page: &mut P,
) -> Result<(), Failed>
    ensures { Writes (P.told page.old) (P.told page.new) result (fields_text (member_fields name.now ⊕ fault_fields line.now fault)) }
{
    write_member(name, page)?;
    write_fault(fault, line, page)
}

/// Writes what is said of a file.
pub(crate) fn write_judged<P: Page>(judged: &Judged<'_>, page: &mut P) -> Result<(), Failed>
    ensures { Writes (P.told page.old) (P.told page.new) result (fields_text (judged_fields judged.now)) }
{
    match judged {
        Judged::Single(single) => write_single(single, page),
        Judged::Packed(packing, single) => write_inside(*packing, single, page),
        Judged::NoPacked(refusal) => write_no_packed(*refusal, page),
        Judged::Archive => write_how("passes", page),
        Judged::NoArchive(refusal) => write_no_archive(*refusal, page),
        Judged::SameNames => write_how("same_names", page),
        Judged::TooLarge => write_how("too_large", page),
        Judged::Member(name, fault, line) => write_failing(*name, *fault, line.as_slice(), page),
    }
}
