// What each refusal means and what to do, in plain words.
use rules::Fault;

const SHORT_WORKSPACE: &str = "\
The workspace is too short.
Lend 32,768 places.";

const SHEET_ENDS: &str = "\
The sheet ends before its END record, or inside a record.
Was the file cut on its way? Send it again whole.";

const SHEET_KIND: &str = "\
This byte of the sheet is no kind of record, or its record is not allowed here.
The order is HEAD, STARTs, rungs, condition, END.";

const SHEET_RANGE: &str = "\
A number or value in this record of the sheet is outside its range.
Inputs and coils count from 0 to one below HEAD's numbers; values are 0 or 1;
HEAD has at most 256 inputs, 1 to 256 coils and no more rungs than coils.";

const START_ORDER: &str = "\
This START does not name a higher coil than the START before it.
Sort the STARTs by coil, and give each coil one at most.";

const SHEET_OPERANDS: &str = "\
An operator lacks operands, or this RUNG or CONDITION does not find exactly one value.
A formula has its operands first, then the operator.";

const SHEET_DEPTH: &str = "\
This record puts a 33rd value on the formula stack.
Write the formula so that fewer values wait for their operator.";

const SHEET_RECORDS: &str = "\
This is the sheet's 1,025th formula record.
Shorten the formulas, or split the ladder.";

const COIL_TWICE: &str = "\
This coil already has a rung.
Join the two rungs into one formula.";

const RUNG_COUNT: &str = "\
This RUNG is one more than HEAD says, or CONDITION comes before all rungs did.
Let HEAD say how many rungs there are.";

const AFTER_SHEET: &str = "\
A byte follows the sheet's END.
Let the file end with END.";

const CERTIFICATE_ENDS: &str = "\
The certificate ends before its END record, or inside a record.
Was the file cut on its way? Send it again whole.";

const CERTIFICATE_KIND: &str = "\
This byte of the certificate is no kind of record, or its record is not allowed here.
An invariant reads no inputs; three refutations follow it; END does not follow INPUT-ON.";

const CERTIFICATE_RANGE: &str = "\
A number or value in this record of the certificate is outside its range.
Inputs and coils count from 0 to one below the sheet's numbers; a CONSTANT is 0 or 1.";

const INVARIANT_OPERANDS: &str = "\
An operator lacks operands, or INVARIANT does not find exactly one value.
A formula has its operands first, then the operator.";

const INVARIANT_DEPTH: &str = "\
This record puts a 33rd value on the formula stack.
Write the invariant so that fewer values wait for their operator.";

const INVARIANT_RECORDS: &str = "\
This is the invariant's 257th formula record.
Shorten the invariant.";

const NO_CLAUSE: &str = "\
This STEP names a clause that is not there yet, or clause 0.
Clauses count from 1, afresh for each refutation: the set's first, then those derived.";

const NO_PIVOT: &str = "\
The pivot is not plain in this STEP's first clause, or not negated in its second.
Compare the clauses with those that cnf prints for this set.";

const WIDTH: &str = "\
This STEP derives a clause of more than 24 literals.
Find another proof, with shorter clauses.";

const STEPS: &str = "\
This is the refutation's 513th STEP.
Find a shorter proof, or a simpler invariant.";

const NOT_EMPTY: &str = "\
This QED does not follow a STEP that derived the empty clause.
The refutation is not finished, or its last STEP is the wrong one.";

const INPUT_ORDER: &str = "\
This INPUT-ON does not name a higher input than the one before it in its scan.
Sort each scan's inputs, and name each once.";

const SCAN_COUNT: &str = "\
The trace has no scan, or this is its 65th SCAN.
A trace has 1 to 64 scans.";

const CONDITION_HELD: &str = "\
The condition held after the trace's last scan, so the trace shows no break.
The last scan has to be one that breaks the condition.";

const AFTER_CERTIFICATE: &str = "\
A byte follows the certificate's END.
Let the file end with END.";

const FILE_SIZE: &str = "\
The sheet file has more than 4,873 bytes, or the certificate file more than 49,218.
No good file is so long.";

const SHORT_ROOM: &str = "\
The room is short of three places a clause.
Lend more room.";

const NO_SET: &str = "\
The set's number is not 1, 2 or 3.
Name one of the three.";

// The lines that a refusal is followed by.
pub fn reason(fault: Fault) -> &'static str {
    match fault {
        Fault::ShortWorkspace => SHORT_WORKSPACE,
        Fault::SheetEnds => SHEET_ENDS,
        Fault::SheetKind => SHEET_KIND,
        Fault::SheetRange => SHEET_RANGE,
        Fault::StartOrder => START_ORDER,
        Fault::SheetOperands => SHEET_OPERANDS,
        Fault::SheetDepth => SHEET_DEPTH,
        Fault::SheetRecords => SHEET_RECORDS,
        Fault::CoilTwice => COIL_TWICE,
        Fault::RungCount => RUNG_COUNT,
        Fault::AfterSheet => AFTER_SHEET,
        Fault::CertificateEnds => CERTIFICATE_ENDS,
        Fault::CertificateKind => CERTIFICATE_KIND,
        Fault::CertificateRange => CERTIFICATE_RANGE,
        Fault::InvariantOperands => INVARIANT_OPERANDS,
        Fault::InvariantDepth => INVARIANT_DEPTH,
        Fault::InvariantRecords => INVARIANT_RECORDS,
        Fault::NoClause => NO_CLAUSE,
        Fault::NoPivot => NO_PIVOT,
        Fault::Width => WIDTH,
        Fault::Steps => STEPS,
        Fault::NotEmpty => NOT_EMPTY,
        Fault::InputOrder => INPUT_ORDER,
        Fault::ScanCount => SCAN_COUNT,
        Fault::ConditionHeld => CONDITION_HELD,
        Fault::AfterCertificate => AFTER_CERTIFICATE,
        Fault::FileSize => FILE_SIZE,
        Fault::ShortRoom => SHORT_ROOM,
        Fault::NoSet => NO_SET,
    }
}
