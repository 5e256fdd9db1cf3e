ghost use Rattle.mc_exec.specs.Laws.{KeptFilter, ScanFilter};

/// Rows that WHERE rejects without a fault may be left out of a scan.
pub fn scan_law()
    ensures kept { KeptFilter }
    ensures scan { ScanFilter }
{}
