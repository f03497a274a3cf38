// The settings of a run, within their bounds.
ghost use Rattle.std.specs.Prelude.{◌≡◌};
ghost use Rattle.exchange.specs.Settings.{checked};

// The numbers of the D line; those that are set or not are marks (mark.rt).
#[derive(Clone, Copy)]
pub struct Settings {
    pub target: u64,
    pub roundrobin: u64,
    pub split: u64,
    pub batch: u64,
    pub estimates: u64,
    pub subset: u64,
    pub files: u64,
    pub sort: u64,
    pub union: u64,
}

impl Settings {
    pub const MIN_TARGET: u64 = 1;

    pub const MAX_TARGET: u64 = 4096;

    pub const MIN_BATCH: u64 = 1;

    // The settings, where target and batch are within their bounds; document 01 names it.
    #[tactic(auto, unfolding(crate::specs::Settings::checked))]
    pub fn new(
        target: u64,
        roundrobin: u64,
        split: u64,
        batch: u64,
        estimates: u64,
        subset: u64,
        files: u64,
        sort: u64,
        union: u64,
    ) -> Option<Settings>
        ensures { result ≡ checked (record { target = target; roundrobin = roundrobin; split = split; batch = batch; estimates = estimates; subset = subset; files = files; sort = sort; union = union }) }
    {
        if target < Settings::MIN_TARGET
            || Settings::MAX_TARGET < target
            || batch < Settings::MIN_BATCH
        {
            return None;
        }
        Some(Settings {
            target,
            roundrobin,
            split,
            batch,
            estimates,
            subset,
            files,
            sort,
            union,
        })
    }
}
