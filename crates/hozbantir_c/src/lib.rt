// The library for C: each export makes the call of its name, and promises what that call promises.
#![tactic(auto)]

ghost use Rattle.hozbantir.specs.Exports.{SendsAnalysis, SendsBudget, SendsBounds};

#[unsafe(no_mangle)]
pub extern "C" fn hozbantir_analyse(netlist: &[u8], slacks: &mut [u8]) -> u64
    ensures { SendsAnalysis netlist.now slacks.old result slacks.new }
{
    hozbantir::hozbantir_analyse(netlist, slacks)
}

#[unsafe(no_mangle)]
pub extern "C" fn hozbantir_budget(mode: u32, netlist: &[u8], res: &mut [u8]) -> u64
    ensures { SendsBudget mode netlist.now res.old result res.new }
{
    hozbantir::hozbantir_budget(mode, netlist, res)
}

#[unsafe(no_mangle)]
pub extern "C" fn hozbantir_read_back(netlist: &[u8], res: &[u8], bounds: &mut [u8]) -> u64
    ensures { SendsBounds netlist.now res.now bounds.old result bounds.new }
{
    hozbantir::hozbantir_read_back(netlist, res, bounds)
}
