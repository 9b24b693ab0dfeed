//! A law over the definitions. The function does nothing: its contract is the law.
ghost use Rattle.chains.specs.Laws.{ChainsMeanViolators, ChainsRefuteRegularity};

/// If a chain is sound for a 0/1 matrix of any size, each signing of its ones has a violator: the named lines of some forced
/// step, or the chain's own violator. No signing is totally unimodular.
pub fn chain_means()
    ensures violators { ChainsMeanViolators }
    ensures regular { ChainsRefuteRegularity }
{}
