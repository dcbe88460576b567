//! The reading of a certificate's text.

ghost use Rattle.std.specs.Prelude.{◌≡◌, ◌⊎◌, Some, None, IfOk, IfErr};
ghost use Rattle.lid_cert.specs.Certificates.{IsInRange, AreLists};
ghost use Rattle.std.specs.List.{All};
ghost use Rattle.lid_cert_text.specs.declared.stage.Stage.TheVariants as stage;
ghost use Rattle.lid_cert_text.specs.Texts.{cert_fault, cert_of, told, at_line, line_at_fault, parts_of};

use crate::building::parts_of;
use crate::fault::CertFault;
use crate::stage::line_at_fault;
use lid_base::{Line, Which};
use lid_base_lines::{LinesFault, limited_lines};
use lid_cert::Cert;
use std::alloc::Global;

/// How a fault of the lines is told.
fn told(fault: LinesFault) -> CertFault
    ensures { result ≡ told fault }
{
    match fault {
        LinesFault::TooLong { bytes } => CertFault::Limit {
            which: Which::FileBytes,
            count: bytes,
        },
        LinesFault::Word { line } => CertFault::Word { line },
        LinesFault::Memory => CertFault::Memory,
    }
}

/// The certificate that the lines of a text stand for.
fn cert_from(alloc: Global, lines: &[Line]) -> Result<Cert, CertFault>
    ensures ok { IfOk result (λ cert. (at_line (line_at_fault stage.Header 0 lines.now) ≡ None) × (cert.parts ≡ parts_of lines.now)) }
    ensures err { IfErr result (λ e. (e ≡ CertFault.Memory) ⊎ (at_line (line_at_fault stage.Header 0 lines.now) ≡ Some e)) }
    ensures range { IfOk result IsInRange }
    ensures lists { IfOk result (λ cert. All AreLists cert.parts) }
{
    if let Some(line) = line_at_fault(lines) {
        return Err(CertFault::Word { line });
    }
    match parts_of(alloc, lines) {
        Ok(parts) => Ok(Cert { parts }),
        Err(_) => Err(CertFault::Memory),
    }
}

/// Reads the text of a certificate. What is read may break any rule of a certificate.
///
/// # Errors
/// `Limit` of `FileBytes`, with the length of the text, comes first of all, where there are more than
/// 16,777,216 bytes. Then `Word` tells the first line with a bad byte or a long word, and then the
/// first line that has not the form that is due there. `Memory` may come at any text.
#[tactic(auto, unfolding(crate::specs::Texts::cert_fault, crate::specs::Texts::cert_of))]
pub fn read_cert(alloc: Global, bytes: &[u8]) -> Result<Cert, CertFault>
    ensures ok { IfOk result (λ cert. (cert_fault bytes.now ≡ None) × (cert ≡ cert_of bytes.now)) }
    ensures err { IfErr result (λ e. (e ≡ CertFault.Memory) ⊎ (cert_fault bytes.now ≡ Some e)) }
    ensures range { IfOk result IsInRange }
    ensures lists { IfOk result (λ cert. All AreLists cert.parts) }
{
    match limited_lines(alloc, bytes) {
        Ok(lines) => cert_from(alloc, lines.as_slice()),
        Err(fault) => Err(told(fault)),
    }
}
