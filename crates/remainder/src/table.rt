//! The tables: 2/pi and pi/2 in parts of 24 bits.

ghost use Rattle.std.specs.Prelude.{◌≡◌, ◌<◌, get_or};
ghost use Rattle.std.specs.Float.{nan};
ghost use Rattle.remainder.specs.Machine.{double};
ghost use Rattle.remainder.specs.Tables.{two_over_pi, pio2};

// init_jk[2]: 2 is the C's prec for 53 bits. jp is jk.
pub(crate) const JK: usize = 4;

// 2/pi in digits of 24 bits, two_over_pi of e_rem_pio2.c.
static TWO_OVER_PI: [u32; 66] = [
    0xa2_f983, 0x6e_4e44, 0x15_29fc, 0x27_57d1, 0xf5_34dd, 0xc0_db62, 0x95_993c, 0x43_9041,
    0xfe_5163, 0xab_debb, 0xc5_61b7, 0x24_6e3a, 0x42_4dd2, 0xe0_0649, 0x2e_ea09, 0xd1_921c,
    0xfe_1deb, 0x1c_b129, 0xa7_3ee8, 0x82_35f5, 0x2e_bb44, 0x84_e99c, 0x70_26b4, 0x5f_7e41,
    0x39_91d6, 0x39_8353, 0x39_f49c, 0x84_5f8b, 0xbd_f928, 0x3b_1ff8, 0x97_ffde, 0x05_980f,
    0xef_2f11, 0x8b_5a0a, 0x6d_1f6d, 0x36_7ecf, 0x27_cb09, 0xb7_4f46, 0x3f_669e, 0x5f_ea2d,
    0x75_27ba, 0xc7_ebe5, 0xf1_7b3d, 0x07_39f7, 0x8a_5292, 0xea_6bfb, 0x5f_b11f, 0x8d_5d08,
    0x56_0330, 0x46_fc7b, 0x6b_abf0, 0xcf_bc20, 0x9a_f436, 0x1d_a9e3, 0x91_615e, 0xe6_1b08,
    0x65_9985, 0x5f_14a0, 0x68_408d, 0xff_d880, 0x4d_7327, 0x31_0606, 0x15_56ca, 0x73_a8c9,
    0x60_e27b, 0xc0_8c6b,
];

// pi/2 in parts of 24 bits, as many of PIo2 of k_rem_pio2.c as jp = 4 takes.
static PIO2: [f64; 5] = [
    1.57079625129699707031e+00,
    7.54978941586159635335e-08,
    5.39030252995776476554e-15,
    3.28200341580791294123e-22,
    1.27065575308067607349e-29,
];

// The digit j of 2/pi.
#[inline(always)]
pub(crate) fn digit(j: usize) -> f64
    requires { j < 66 }
    ensures { result ≡ double (get_or two_over_pi j 0) }
{
    TWO_OVER_PI[j] as f64
}

// The part k of pi/2.
#[inline(always)]
pub(crate) fn pio2(k: usize) -> f64
    requires { k < 5 }
    ensures { result ≡ get_or pio2 k nan }
{
    PIO2[k]
}
