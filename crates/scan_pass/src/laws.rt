//! What both steps keep together: each law is the contract of a function with an empty body.

ghost use Rattle.scan_pass.specs.Scanned.{ScannedFollows, ScannedKeepsSteps, ScannedKeepsSizes, ScanIsOne, ScanSeesCodeAlone};

/// The scan preserves the simulation, and keeps matched block ends matched.
pub fn scanned_follows()
    ensures { ScannedFollows }
{}

/// It is a run of its two steps, with these losses.
pub fn scanned_keeps_steps()
    ensures { ScannedKeepsSteps }
{}

/// It keeps the size bounds with factor 4 and count 1.
pub fn scanned_keeps_sizes()
    ensures { ScannedKeepsSizes }
{}

/// Of one function's code each step makes one.
pub fn scan_is_one()
    ensures { ScanIsOne }
{}

/// No step's code rule depends on debug items.
pub fn scan_sees_code_alone()
    ensures { ScanSeesCodeAlone }
{}
