// The classification of 58 alerts by six lifecycles, source document 002.
ghost use Rattle.std.specs.Prelude.{◌≡◌, ◌<◌};
ghost use Rattle.policy.specs.Plan.{class_of, en_of, is_a};
ghost use Rattle.policy.specs.Table.{mark_at};

use policy::Mark::{A, B, C, D, X};
use policy::{Lifecycle, Mark};

// The alerts that the policy classifies.
pub const ALERTS: usize = 58;

// A row for each alert, a column for each lifecycle.
const TABLE: [[Mark; 6]; ALERTS] = [
    [X, C, C, X, X, X], // 0 Uart0FatalFault
    [X, C, C, X, X, X], // 1 Uart1FatalFault
    [X, C, C, X, X, X], // 2 Uart2FatalFault
    [X, C, C, X, X, X], // 3 Uart3FatalFault
    [X, C, C, X, X, X], // 4 GpioFatalFault
    [X, C, C, X, X, X], // 5 SpiDeviceFatalFault
    [X, C, C, D, X, X], // 6 SpiHost0FatalFault
    [X, C, C, D, X, X], // 7 SpiHost1FatalFault
    [X, C, C, X, X, X], // 8 I2c0FatalFault
    [X, C, C, X, X, X], // 9 I2c1FatalFault
    [X, C, C, X, X, X], // 10 I2c2FatalFault
    [X, C, C, X, X, X], // 11 PattgenFatalFault
    [X, C, C, X, X, X], // 12 RvTimerFatalFault
    [X, C, C, X, X, X], // 13 UsbdevFatalFault
    [X, A, A, D, X, X], // 14 OtpCtrlFatalMacroError
    [X, A, A, D, X, X], // 15 OtpCtrlFatalCheckError
    [X, A, A, D, X, X], // 16 OtpCtrlFatalBusIntegError
    [X, A, A, D, X, X], // 17 LcCtrlFatalProgError
    [X, A, A, D, X, X], // 18 LcCtrlFatalStateError
    [X, A, A, D, X, X], // 19 LcCtrlFatalBusIntegError
    [X, C, C, X, X, X], // 20 PwrmgrAonFatalFault
    [X, C, C, X, X, X], // 21 RstmgrAonFatalFault
    [X, C, C, X, X, X], // 22 ClkmgrAonRecovFault
    [X, C, C, X, X, X], // 23 ClkmgrAonFatalFault
    [X, C, C, X, X, X], // 24 SysrstCtrlAonFatalFault
    [X, C, C, X, X, X], // 25 AdcCtrlAonFatalFault
    [X, C, C, X, X, X], // 26 PwmAonFatalFault
    [X, C, C, X, X, X], // 27 PinmuxAonFatalFault
    [X, C, C, X, X, X], // 28 AonTimerAonFatalFault
    [X, C, C, X, X, X], // 29 SensorCtrlRecovAlert
    [X, C, C, X, X, X], // 30 SensorCtrlFatalAlert
    [X, B, B, D, X, X], // 31 SramCtrlRetAonFatalIntgError
    [X, D, D, D, X, X], // 32 FlashCtrlRecovErr
    [X, A, A, D, X, X], // 33 FlashCtrlFatalErr
    [X, C, C, X, X, X], // 34 RvDmFatalFault
    [X, C, C, X, X, X], // 35 RvPlicFatalFault
    [X, D, D, D, X, X], // 36 AesRecovCtrlUpdateErr
    [X, A, A, D, X, X], // 37 AesFatalFault
    [X, A, A, D, X, X], // 38 HmacFatalFault
    [X, A, A, D, X, X], // 39 KmacFatalFault
    [X, A, A, D, X, X], // 40 KeymgrFatalFaultErr
    [X, D, D, D, X, X], // 41 KeymgrRecovOperationErr
    [X, D, D, D, X, X], // 42 CsrngRecovAlert
    [X, A, A, D, X, X], // 43 CsrngFatalAlert
    [X, D, D, D, X, X], // 44 EntropySrcRecovAlert
    [X, A, A, D, X, X], // 45 EntropySrcFatalAlert
    [X, A, A, D, X, X], // 46 Edn0FatalAlert
    [X, D, D, D, X, X], // 47 Edn0RecovAlert
    [X, A, A, D, X, X], // 48 Edn1FatalAlert
    [X, D, D, D, X, X], // 49 Edn1RecovAlert
    [X, A, A, D, X, X], // 50 SramCtrlMainFatalError
    [X, A, A, D, X, X], // 51 OtbnFatal
    [X, D, D, D, X, X], // 52 OtbnRecov
    [X, A, A, D, X, X], // 53 RomCtrlFatal
    [X, A, A, D, X, X], // 54 RvCoreIbexFatalSwErr
    [X, D, D, D, X, X], // 55 RvCoreIbexRecovSwErr
    [X, A, A, D, X, X], // 56 RvCoreIbexFatalHwErr
    [X, D, D, D, X, X], // 57 RvCoreIbexRecovHwErr
];

// How alert i is marked.
pub fn mark(l: Lifecycle, i: usize) -> Mark
    requires { i < 58 }
    ensures { result ≡ mark_at l i }
{
    TABLE[i][l as usize]
}

// CLASS and EN of an alert marked m: X means 0 and 0.
pub fn class_value(m: Mark) -> u32
    ensures { result ≡ class_of m }
{
    match m {
        A | X => 0,
        B => 1,
        C => 2,
        D => 3,
    }
}

pub fn en_value(m: Mark) -> u32
    ensures { result ≡ en_of m }
{
    u32::from(m != X)
}

pub fn is_a(m: Mark) -> bool
    ensures { result ≡ is_a m }
{
    m == A
}
