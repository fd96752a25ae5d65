// The readings of sheets, certificates and traces: well formed means something without the reader. There is nothing to run.
#![tactic(auto)]

ghost use Rattle.reading.specs.Sheets.{SheetExactly, Clipped};
ghost use Rattle.reading.specs.Traces.{TraceExactly, TraceClipped};
ghost use Rattle.reading.specs.Certificates.{CertificateExactly, CertificateClipped};

// Bytes are read as a sheet exactly when it is within the limits and writes them.
pub fn sheet_exactly()
    ensures { SheetExactly }
{}

// Every proper prefix of a good sheet is refused with 2.
pub fn clipped()
    ensures { Clipped }
{}

// Bytes are read as a trace exactly when it is within the limits and writes them.
pub fn trace_exactly()
    ensures { TraceExactly }
{}

// Every proper prefix of a trace has a reading that ends in 12.
pub fn trace_clipped()
    ensures { TraceClipped }
{}

// Bytes are read as a safety certificate exactly when it is within the limits and writes them.
pub fn certificate_exactly()
    ensures { CertificateExactly }
{}

// Every proper prefix of a safety certificate has a reading that ends in 12.
pub fn certificate_clipped()
    ensures { CertificateClipped }
{}
