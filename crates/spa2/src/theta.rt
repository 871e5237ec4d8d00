// The load that a processor is filled up to.
ghost use Rattle.std.specs.Prelude.{◌≡◌, ◌≤◌};
ghost use Rattle.spa2.specs.Thetas.{theta_of, as_counted, Threshold};

// Entry N - 1 is for N tasks. (Constants, since the bound has an N-th root and the planner computes in whole numbers.)
const THETA: [u64; 32] = [
    1000000, 828427, 779763, 756828, 743491, 734772, 728626, 724061, 720537, 717734, 715451,
    713557, 711958, 710592, 709411, 708380, 707472, 706666, 705945, 705298, 704713, 704182, 703697,
    703253, 702845, 702469, 702121, 701797, 701497, 701216, 700954, 700708,
];

// The threshold for a set of `tasks` tasks, in millionths of a processor; fewer than 1 are read as 1, more than 32 as 32.
pub fn theta(tasks: usize) -> u64
    ensures value { result ≡ theta_of tasks }
    ensures bound { result ≤ 1000000 }
    ensures rule { Threshold (as_counted tasks) result }
{
    THETA[tasks.clamp(1, 32) - 1]
}
