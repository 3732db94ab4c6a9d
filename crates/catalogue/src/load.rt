//! What generated sessions are made from.

/// A load of SmallBank transactions.
#[derive(Clone, Copy, Debug, PartialEq, Eq)]
pub struct BankPlan {
    /// Seeds the generator.
    pub number: u64,
    /// 1 to 8.
    pub clients: u8,
    /// Scripts of each client, 1 to 4,096; clients times scripts are at most 4,096.
    pub scripts: u32,
    /// 2 to 32,768.
    pub customers: u32,
    /// The first customers, whose tuples are hot: 0 to `customers`.
    pub hot: u32,
    /// The percentage of draws that fall among the hot customers, 0 to 100.
    pub share: u8,
}

/// A load of YCSB operations.
#[derive(Clone, Copy, Debug, PartialEq, Eq)]
pub struct YcsbPlan {
    /// Seeds the generator.
    pub number: u64,
    /// 1 to 8.
    pub clients: u8,
    /// Scripts of each client, 1 to 4,096; clients times scripts are at most 4,096.
    pub scripts: u32,
    /// 16 to 65,536.
    pub records: u32,
    /// The first records, which are hot: 0 to `records`.
    pub hot: u32,
    /// The percentage of draws that fall among the hot records, 0 to 100.
    pub share: u8,
    /// Operations of a script, 1 to 16.
    pub ops: u8,
    /// How many of them read.
    pub mix: Mix,
}

/// The share of reads, by the name of the YCSB core workload that has it.
#[derive(Clone, Copy, Debug, PartialEq, Eq)]
pub enum Mix {
    /// Of 100 operations 50 read.
    A,
    /// Of 100 operations 95 read.
    B,
    /// All operations read.
    C,
}
