// Why bytes are refused, and where. The numbers are specs/Fault.antt's.
ghost use Rattle.std.specs.Prelude.{◌≡◌};
ghost use Rattle.rules.specs.Fault.{number_of};

// What is wrong, in the order of the numbers.
#[derive(Clone, Copy, Debug, PartialEq, Eq)]
pub enum Fault {
    ShortWorkspace, // the workspace is too short
    SheetEnds, // no byte is left of the sheet, or a record's body is cut
    SheetKind, // no such kind, or not allowed here in a sheet
    SheetRange, // a number out of range in a sheet
    StartOrder, // a START that does not rise
    SheetOperands, // an operator or closing record without its values
    SheetDepth, // a value above the formula stack
    SheetRecords, // a formula record above the sheet's limit
    CoilTwice, // a coil that two rungs drive
    RungCount, // more or fewer rungs than HEAD promised
    AfterSheet, // a byte after the sheet's END
    CertificateEnds, // no byte is left of the certificate, or a record's body is cut
    CertificateKind, // no such kind, or not allowed here in a certificate
    CertificateRange, // a number out of range in a certificate
    InvariantOperands, // an operator or INVARIANT without its values
    InvariantDepth, // a value above the invariant's stack
    InvariantRecords, // a formula record above the invariant's limit
    NoClause, // a STEP that names a clause that is not there
    NoPivot, // a pivot that does not stand plain in the first and negated in the second
    Width, // a derived clause with too many literals
    Steps, // a STEP above the limit
    NotEmpty, // a QED that does not follow the empty clause
    InputOrder, // an INPUT-ON that does not rise
    ScanCount, // no scan, or one above the limit
    ConditionHeld, // a trace after whose last scan the condition held
    AfterCertificate, // a byte after the certificate's END
    FileSize, // a file that is too long
    ShortRoom, // a room short of three places a clause
    NoSet, // a set's number other than 1, 2 and 3
}

// A fault and the place of the record at fault, or the length where no byte is left.
#[derive(Clone, Copy, Debug, PartialEq, Eq)]
pub struct Refusal {
    pub fault: Fault,
    pub place: usize,
}

impl Fault {
    pub fn at(self, place: usize) -> Refusal
        ensures { result ≡ record { fault = self; place = place } }
    {
        Refusal { fault: self, place }
    }
}

impl From<Fault> for u8 {
    ghost from_gives = { λ f n. n ≡ number_of f };

    fn from(fault: Fault) -> u8 {
        match fault {
            Fault::ShortWorkspace => 1,
            Fault::SheetEnds => 2,
            Fault::SheetKind => 3,
            Fault::SheetRange => 4,
            Fault::StartOrder => 5,
            Fault::SheetOperands => 6,
            Fault::SheetDepth => 7,
            Fault::SheetRecords => 8,
            Fault::CoilTwice => 9,
            Fault::RungCount => 10,
            Fault::AfterSheet => 11,
            Fault::CertificateEnds => 12,
            Fault::CertificateKind => 13,
            Fault::CertificateRange => 14,
            Fault::InvariantOperands => 15,
            Fault::InvariantDepth => 16,
            Fault::InvariantRecords => 17,
            Fault::NoClause => 18,
            Fault::NoPivot => 19,
            Fault::Width => 20,
            Fault::Steps => 21,
            Fault::NotEmpty => 22,
            Fault::InputOrder => 23,
            Fault::ScanCount => 24,
            Fault::ConditionHeld => 25,
            Fault::AfterCertificate => 26,
            Fault::FileSize => 27,
            Fault::ShortRoom => 28,
            Fault::NoSet => 29,
        }
    }
}

// A fault of the call itself has place 0.
impl From<Fault> for Refusal {
    ghost from_gives = { λ f x. x ≡ record { fault = f; place = 0 } };

    fn from(fault: Fault) -> Refusal {
        fault.at(0)
    }
}
