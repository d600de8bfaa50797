// The answer to an agreement (kind 12) by row 18, beside the file's own.
ghost use Rattle.std.specs.Prelude.{◌≡◌};
ghost use Rattle.premise_rows.specs.AgreementRows.{deletes_another};

use records::Record;

// Row 18: whether a delete names a retailer other than the one of the file's agreement.
pub fn deletes_another(agreement: u64, r: Record) -> bool
    ensures { result ≡ deletes_another agreement r }
{
    (r.detail == records::DELETE) & (r.retailer != agreement)
}
