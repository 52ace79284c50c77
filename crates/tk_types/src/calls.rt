//! The system calls with the values of their arguments, one family for each part of the kernel.
//! A number is the value read at the call, a list is a record of truth values, a body is its number in the
//! script from 1, with 0 for none, and a device is its ID, with 0 where the script has none of that name.

ghost use Rattle.std.specs.Prelude.{◌≡◌};
ghost use Rattle.tk_types.specs.Calls.{made, name_of, task_call_name, sem_flag_call_name, mutex_call_name, mail_call_name, pool_call_name, time_call_name, context_call_name, device_call_name, hook_call_name};

use crate::call_name::CallName;
use crate::modes::{Attributes, FlagMode, OpenMode, SuspendMode};

/// A system call of one of the families.
#[derive(Clone, Copy)]
pub enum Call {
    Task(TaskCall),
    SemFlag(SemFlagCall),
    Mutex(MutexCall),
    Mail(MailCall),
    Pool(PoolCall),
    Time(TimeCall),
    Context(ContextCall),
    Device(DeviceCall),
    Hook(HookCall),
}

/// The calls on tasks and on sleep and delay.
#[derive(Clone, Copy)]
pub enum TaskCall {
    /// `tk_cre_tsk`
    CreTsk {
        attributes: Attributes,
        body: u8,
        priority: i32,
        stack: i32,
    },
    /// `tk_del_tsk`
    DelTsk {
        task: i32,
    },
    /// `tk_sta_tsk`
    StaTsk {
        task: i32,
        code: i32,
    },
    /// `tk_ext_tsk`
    ExtTsk,
    /// `tk_exd_tsk`
    ExdTsk,
    /// `tk_ter_tsk`
    TerTsk {
        task: i32,
    },
    /// `tk_chg_pri`
    ChgPri {
        task: i32,
        priority: i32,
    },
    /// `tk_rot_rdq`
    RotRdq {
        priority: i32,
    },
    /// `tk_get_tid`
    GetTid,
    /// `tk_ref_tsk`
    RefTsk {
        task: i32,
    },
    /// `tk_slp_tsk`
    SlpTsk {
        timeout: i32,
    },
    /// `tk_wup_tsk`
    WupTsk {
        task: i32,
    },
    /// `tk_can_wup`
    CanWup {
        task: i32,
    },
    /// `tk_rel_wai`
    RelWai {
        task: i32,
    },
    /// `tk_sus_tsk`
    SusTsk {
        task: i32,
    },
    /// `tk_rsm_tsk`
    RsmTsk {
        task: i32,
    },
    /// `tk_frsm_tsk`
    FrsmTsk {
        task: i32,
    },
    /// `tk_dly_tsk`
    DlyTsk {
        delay: i32,
    },
}

/// The calls on semaphores and event flags.
#[derive(Clone, Copy)]
pub enum SemFlagCall {
    /// `tk_cre_sem`
    CreSem {
        attributes: Attributes,
        count: i32,
        most: i32,
    },
    /// `tk_sig_sem`
    SigSem {
        id: i32,
        count: i32,
    },
    /// `tk_wai_sem`
    WaiSem {
        id: i32,
        count: i32,
        timeout: i32,
    },
    /// `tk_ref_sem`
    RefSem {
        id: i32,
    },
    /// `tk_cre_flg`
    CreFlg {
        attributes: Attributes,
        pattern: i32,
    },
    /// `tk_set_flg`
    SetFlg {
        id: i32,
        pattern: i32,
    },
    /// `tk_clr_flg`
    ClrFlg {
        id: i32,
        pattern: i32,
    },
    /// `tk_wai_flg`
    WaiFlg {
        id: i32,
        pattern: i32,
        mode: FlagMode,
        timeout: i32,
    },
    /// `tk_ref_flg`
    RefFlg {
        id: i32,
    },
    /// `tk_del_sem`
    DelSem {
        id: i32,
    },
    /// `tk_del_flg`
    DelFlg {
        id: i32,
    },
}

/// The calls on mutexes.
#[derive(Clone, Copy)]
pub enum MutexCall {
    /// `tk_cre_mtx`
    CreMtx {
        attributes: Attributes,
        ceiling: i32,
    },
    /// `tk_loc_mtx`
    LocMtx {
        id: i32,
        timeout: i32,
    },
    /// `tk_unl_mtx`
    UnlMtx {
        id: i32,
    },
    /// `tk_ref_mtx`
    RefMtx {
        id: i32,
    },
    /// `tk_del_mtx`
    DelMtx {
        id: i32,
    },
}

/// The calls on mailboxes and message buffers.
#[derive(Clone, Copy)]
pub enum MailCall {
    /// `tk_cre_mbx`
    CreMbx {
        attributes: Attributes,
    },
    /// `tk_del_mbx`
    DelMbx {
        id: i32,
    },
    /// `tk_snd_mbx`
    SndMbx {
        id: i32,
        priority: i32,
        value: i32,
    },
    /// `tk_rcv_mbx`
    RcvMbx {
        id: i32,
        timeout: i32,
    },
    /// `tk_ref_mbx`
    RefMbx {
        id: i32,
    },
    /// `tk_cre_mbf`
    CreMbf {
        attributes: Attributes,
        size: i32,
        most: i32,
    },
    /// `tk_snd_mbf`
    SndMbf {
        id: i32,
        address: i32,
        length: i32,
        timeout: i32,
    },
    /// `tk_rcv_mbf`
    RcvMbf {
        id: i32,
        address: i32,
        timeout: i32,
    },
    /// `tk_ref_mbf`
    RefMbf {
        id: i32,
    },
    /// `tk_del_mbf`
    DelMbf {
        id: i32,
    },
}

/// The calls on fixed and variable memory pools.
#[derive(Clone, Copy)]
pub enum PoolCall {
    /// `tk_cre_mpf`
    CreMpf {
        attributes: Attributes,
        count: i32,
        size: i32,
    },
    /// `tk_del_mpf`
    DelMpf {
        id: i32,
    },
    /// `tk_get_mpf`
    GetMpf {
        id: i32,
        timeout: i32,
    },
    /// `tk_rel_mpf`
    RelMpf {
        id: i32,
        block: i32,
    },
    /// `tk_ref_mpf`
    RefMpf {
        id: i32,
    },
    /// `tk_cre_mpl`
    CreMpl {
        attributes: Attributes,
        size: i32,
    },
    /// `tk_del_mpl`
    DelMpl {
        id: i32,
    },
    /// `tk_get_mpl`
    GetMpl {
        id: i32,
        size: i32,
        timeout: i32,
    },
    /// `tk_rel_mpl`
    RelMpl {
        id: i32,
        offset: i32,
    },
    /// `tk_ref_mpl`
    RefMpl {
        id: i32,
    },
}

/// The calls on time, cyclic handlers and alarm handlers.
#[derive(Clone, Copy)]
pub enum TimeCall {
    /// `tk_set_tim`
    SetTim {
        high: i32,
        low: i32,
    },
    /// `tk_get_tim`
    GetTim,
    /// `tk_get_otm`
    GetOtm,
    /// `tk_cre_cyc`
    CreCyc {
        attributes: Attributes,
        body: u8,
        period: i32,
        phase: i32,
    },
    /// `tk_sta_cyc`
    StaCyc {
        id: i32,
    },
    /// `tk_stp_cyc`
    StpCyc {
        id: i32,
    },
    /// `tk_del_cyc`
    DelCyc {
        id: i32,
    },
    /// `tk_ref_cyc`
    RefCyc {
        id: i32,
    },
    /// `tk_cre_alm`
    CreAlm {
        attributes: Attributes,
        body: u8,
    },
    /// `tk_sta_alm`
    StaAlm {
        id: i32,
        delay: i32,
    },
    /// `tk_stp_alm`
    StpAlm {
        id: i32,
    },
    /// `tk_del_alm`
    DelAlm {
        id: i32,
    },
    /// `tk_ref_alm`
    RefAlm {
        id: i32,
    },
}

/// The calls on interrupts, dispatching, subsystems and extended calls.
#[derive(Clone, Copy)]
pub enum ContextCall {
    /// `tk_def_int`
    DefInt { number: i32, body: u8 },
    /// `tk_dis_dsp`
    DisDsp,
    /// `tk_ena_dsp`
    EnaDsp,
    /// `DI`
    Di,
    /// `EI`
    Ei,
    /// `tk_ref_sys`
    RefSys,
    /// `tk_def_ssy`
    DefSsy { number: i32, body: u8 },
    /// `tk_ref_ssy`
    RefSsy { number: i32 },
    /// `svc`
    Svc { number: i32, value: i32 },
}

/// The calls on devices.
#[derive(Clone, Copy)]
pub enum DeviceCall {
    /// `tk_opn_dev`
    OpnDev {
        device: u8,
        mode: OpenMode,
    },
    /// `tk_rea_dev`
    ReaDev {
        descriptor: i32,
        start: i32,
        address: i32,
        size: i32,
        timeout: i32,
    },
    /// `tk_wri_dev`
    WriDev {
        descriptor: i32,
        start: i32,
        address: i32,
        size: i32,
        timeout: i32,
    },
    /// `tk_srea_dev`
    SreaDev {
        descriptor: i32,
        start: i32,
        address: i32,
        size: i32,
    },
    /// `tk_swri_dev`
    SwriDev {
        descriptor: i32,
        start: i32,
        address: i32,
        size: i32,
    },
    /// `tk_wai_dev`
    WaiDev {
        descriptor: i32,
        request: i32,
        timeout: i32,
    },
    /// `tk_cls_dev`
    ClsDev {
        descriptor: i32,
    },
    /// `tk_sus_dev`
    SusDev {
        mode: SuspendMode,
    },
    /// `tk_ref_dev`
    RefDev {
        device: u8,
    },
}

/// The calls that show lists and queues, and those that set hooks.
#[derive(Clone, Copy)]
pub enum HookCall {
    /// `td_lst_tsk`
    LstTsk {
        address: i32,
        most: i32,
    },
    /// `td_lst_sem`
    LstSem {
        address: i32,
        most: i32,
    },
    /// `td_lst_flg`
    LstFlg {
        address: i32,
        most: i32,
    },
    /// `td_lst_mbx`
    LstMbx {
        address: i32,
        most: i32,
    },
    /// `td_lst_mtx`
    LstMtx {
        address: i32,
        most: i32,
    },
    /// `td_lst_mbf`
    LstMbf {
        address: i32,
        most: i32,
    },
    /// `td_lst_mpf`
    LstMpf {
        address: i32,
        most: i32,
    },
    /// `td_lst_mpl`
    LstMpl {
        address: i32,
        most: i32,
    },
    /// `td_lst_cyc`
    LstCyc {
        address: i32,
        most: i32,
    },
    /// `td_lst_alm`
    LstAlm {
        address: i32,
        most: i32,
    },
    /// `td_lst_ssy`
    LstSsy {
        address: i32,
        most: i32,
    },
    /// `td_rdy_que`
    RdyQue {
        priority: i32,
        address: i32,
        most: i32,
    },
    /// `td_sem_que`
    SemQue {
        id: i32,
        address: i32,
        most: i32,
    },
    /// `td_flg_que`
    FlgQue {
        id: i32,
        address: i32,
        most: i32,
    },
    /// `td_mbx_que`
    MbxQue {
        id: i32,
        address: i32,
        most: i32,
    },
    /// `td_mtx_que`
    MtxQue {
        id: i32,
        address: i32,
        most: i32,
    },
    /// `td_smbf_que`
    SmbfQue {
        id: i32,
        address: i32,
        most: i32,
    },
    /// `td_rmbf_que`
    RmbfQue {
        id: i32,
        address: i32,
        most: i32,
    },
    /// `td_mpf_que`
    MpfQue {
        id: i32,
        address: i32,
        most: i32,
    },
    /// `td_mpl_que`
    MplQue {
        id: i32,
        address: i32,
        most: i32,
    },
    /// `td_hok_svc`
    HokSvc {
        value: i32,
    },
    /// `td_hok_dsp`
    HokDsp {
        value: i32,
    },
    /// `td_hok_int`
    HokInt {
        value: i32,
    },
}

impl Call {
    /// The call of that name with these arguments, each as the 32 bits that a register holds: a list as one
    /// bit for each word, a body or a device as its number. Places that the form doesn't have aren't read.
    #[tactic(auto, unfolding(crate::specs::Calls::made))]
    pub fn new(name: CallName, args: &[u32; 5]) -> Call
        ensures { result ≡ made name args.now }
    {
        match name {
            CallName::TkCreTsk => Call::Task(TaskCall::CreTsk {
                attributes: Attributes::of_bits(args[0]),
                body: (args[1] % 256) as u8,
                priority: args[2].cast_signed(),
                stack: args[3].cast_signed(),
            }),
            CallName::TkDelTsk => Call::Task(TaskCall::DelTsk {
                task: args[0].cast_signed(),
            }),
            CallName::TkStaTsk => Call::Task(TaskCall::StaTsk {
                task: args[0].cast_signed(),
                code: args[1].cast_signed(),
            }),
            CallName::TkExtTsk => Call::Task(TaskCall::ExtTsk),
            CallName::TkExdTsk => Call::Task(TaskCall::ExdTsk),
            CallName::TkTerTsk => Call::Task(TaskCall::TerTsk {
                task: args[0].cast_signed(),
            }),
            CallName::TkChgPri => Call::Task(TaskCall::ChgPri {
                task: args[0].cast_signed(),
                priority: args[1].cast_signed(),
            }),
            CallName::TkRotRdq => Call::Task(TaskCall::RotRdq {
                priority: args[0].cast_signed(),
            }),
            CallName::TkGetTid => Call::Task(TaskCall::GetTid),
            CallName::TkRefTsk => Call::Task(TaskCall::RefTsk {
                task: args[0].cast_signed(),
            }),
            CallName::TkSlpTsk => Call::Task(TaskCall::SlpTsk {
                timeout: args[0].cast_signed(),
            }),
            CallName::TkWupTsk => Call::Task(TaskCall::WupTsk {
                task: args[0].cast_signed(),
            }),
            CallName::TkCanWup => Call::Task(TaskCall::CanWup {
                task: args[0].cast_signed(),
            }),
            CallName::TkRelWai => Call::Task(TaskCall::RelWai {
                task: args[0].cast_signed(),
            }),
            CallName::TkSusTsk => Call::Task(TaskCall::SusTsk {
                task: args[0].cast_signed(),
            }),
            CallName::TkRsmTsk => Call::Task(TaskCall::RsmTsk {
                task: args[0].cast_signed(),
            }),
            CallName::TkFrsmTsk => Call::Task(TaskCall::FrsmTsk {
                task: args[0].cast_signed(),
            }),
            CallName::TkDlyTsk => Call::Task(TaskCall::DlyTsk {
                delay: args[0].cast_signed(),
            }),
            CallName::TkCreSem => Call::SemFlag(SemFlagCall::CreSem {
                attributes: Attributes::of_bits(args[0]),
                count: args[1].cast_signed(),
                most: args[2].cast_signed(),
            }),
            CallName::TkSigSem => Call::SemFlag(SemFlagCall::SigSem {
                id: args[0].cast_signed(),
                count: args[1].cast_signed(),
            }),
            CallName::TkWaiSem => Call::SemFlag(SemFlagCall::WaiSem {
                id: args[0].cast_signed(),
                count: args[1].cast_signed(),
                timeout: args[2].cast_signed(),
            }),
            CallName::TkRefSem => Call::SemFlag(SemFlagCall::RefSem {
                id: args[0].cast_signed(),
            }),
            CallName::TkCreFlg => Call::SemFlag(SemFlagCall::CreFlg {
                attributes: Attributes::of_bits(args[0]),
                pattern: args[1].cast_signed(),
            }),
            CallName::TkSetFlg => Call::SemFlag(SemFlagCall::SetFlg {
                id: args[0].cast_signed(),
                pattern: args[1].cast_signed(),
            }),
            CallName::TkClrFlg => Call::SemFlag(SemFlagCall::ClrFlg {
                id: args[0].cast_signed(),
                pattern: args[1].cast_signed(),
            }),
            CallName::TkWaiFlg => Call::SemFlag(SemFlagCall::WaiFlg {
                id: args[0].cast_signed(),
                pattern: args[1].cast_signed(),
                mode: FlagMode::of_bits(args[2]),
                timeout: args[3].cast_signed(),
            }),
            CallName::TkRefFlg => Call::SemFlag(SemFlagCall::RefFlg {
                id: args[0].cast_signed(),
            }),
            CallName::TkDelSem => Call::SemFlag(SemFlagCall::DelSem {
                id: args[0].cast_signed(),
            }),
            CallName::TkDelFlg => Call::SemFlag(SemFlagCall::DelFlg {
                id: args[0].cast_signed(),
            }),
            CallName::TkCreMtx => Call::Mutex(MutexCall::CreMtx {
                attributes: Attributes::of_bits(args[0]),
                ceiling: args[1].cast_signed(),
            }),
            CallName::TkLocMtx => Call::Mutex(MutexCall::LocMtx {
                id: args[0].cast_signed(),
                timeout: args[1].cast_signed(),
            }),
            CallName::TkUnlMtx => Call::Mutex(MutexCall::UnlMtx {
                id: args[0].cast_signed(),
            }),
            CallName::TkRefMtx => Call::Mutex(MutexCall::RefMtx {
                id: args[0].cast_signed(),
            }),
            CallName::TkDelMtx => Call::Mutex(MutexCall::DelMtx {
                id: args[0].cast_signed(),
            }),
            CallName::TkCreMbx => Call::Mail(MailCall::CreMbx {
                attributes: Attributes::of_bits(args[0]),
            }),
            CallName::TkDelMbx => Call::Mail(MailCall::DelMbx {
                id: args[0].cast_signed(),
            }),
            CallName::TkSndMbx => Call::Mail(MailCall::SndMbx {
                id: args[0].cast_signed(),
                priority: args[1].cast_signed(),
                value: args[2].cast_signed(),
            }),
            CallName::TkRcvMbx => Call::Mail(MailCall::RcvMbx {
                id: args[0].cast_signed(),
                timeout: args[1].cast_signed(),
            }),
            CallName::TkRefMbx => Call::Mail(MailCall::RefMbx {
                id: args[0].cast_signed(),
            }),
            CallName::TkCreMbf => Call::Mail(MailCall::CreMbf {
                attributes: Attributes::of_bits(args[0]),
                size: args[1].cast_signed(),
                most: args[2].cast_signed(),
            }),
            CallName::TkSndMbf => Call::Mail(MailCall::SndMbf {
                id: args[0].cast_signed(),
                address: args[1].cast_signed(),
                length: args[2].cast_signed(),
                timeout: args[3].cast_signed(),
            }),
            CallName::TkRcvMbf => Call::Mail(MailCall::RcvMbf {
                id: args[0].cast_signed(),
                address: args[1].cast_signed(),
                timeout: args[2].cast_signed(),
            }),
            CallName::TkRefMbf => Call::Mail(MailCall::RefMbf {
                id: args[0].cast_signed(),
            }),
            CallName::TkDelMbf => Call::Mail(MailCall::DelMbf {
                id: args[0].cast_signed(),
            }),
            CallName::TkCreMpf => Call::Pool(PoolCall::CreMpf {
                attributes: Attributes::of_bits(args[0]),
                count: args[1].cast_signed(),
                size: args[2].cast_signed(),
            }),
            CallName::TkDelMpf => Call::Pool(PoolCall::DelMpf {
                id: args[0].cast_signed(),
            }),
            CallName::TkGetMpf => Call::Pool(PoolCall::GetMpf {
                id: args[0].cast_signed(),
                timeout: args[1].cast_signed(),
            }),
            CallName::TkRelMpf => Call::Pool(PoolCall::RelMpf {
                id: args[0].cast_signed(),
                block: args[1].cast_signed(),
            }),
            CallName::TkRefMpf => Call::Pool(PoolCall::RefMpf {
                id: args[0].cast_signed(),
            }),
            CallName::TkCreMpl => Call::Pool(PoolCall::CreMpl {
                attributes: Attributes::of_bits(args[0]),
                size: args[1].cast_signed(),
            }),
            CallName::TkDelMpl => Call::Pool(PoolCall::DelMpl {
                id: args[0].cast_signed(),
            }),
            CallName::TkGetMpl => Call::Pool(PoolCall::GetMpl {
                id: args[0].cast_signed(),
                size: args[1].cast_signed(),
                timeout: args[2].cast_signed(),
            }),
            CallName::TkRelMpl => Call::Pool(PoolCall::RelMpl {
                id: args[0].cast_signed(),
                offset: args[1].cast_signed(),
            }),
            CallName::TkRefMpl => Call::Pool(PoolCall::RefMpl {
                id: args[0].cast_signed(),
            }),
            CallName::TkSetTim => Call::Time(TimeCall::SetTim {
                high: args[0].cast_signed(),
                low: args[1].cast_signed(),
            }),
            CallName::TkGetTim => Call::Time(TimeCall::GetTim),
            CallName::TkGetOtm => Call::Time(TimeCall::GetOtm),
            CallName::TkCreCyc => Call::Time(TimeCall::CreCyc {
                attributes: Attributes::of_bits(args[0]),
                body: (args[1] % 256) as u8,
                period: args[2].cast_signed(),
                phase: args[3].cast_signed(),
            }),
            CallName::TkStaCyc => Call::Time(TimeCall::StaCyc {
                id: args[0].cast_signed(),
            }),
            CallName::TkStpCyc => Call::Time(TimeCall::StpCyc {
                id: args[0].cast_signed(),
            }),
            CallName::TkDelCyc => Call::Time(TimeCall::DelCyc {
                id: args[0].cast_signed(),
            }),
            CallName::TkRefCyc => Call::Time(TimeCall::RefCyc {
                id: args[0].cast_signed(),
            }),
            CallName::TkCreAlm => Call::Time(TimeCall::CreAlm {
                attributes: Attributes::of_bits(args[0]),
                body: (args[1] % 256) as u8,
            }),
            CallName::TkStaAlm => Call::Time(TimeCall::StaAlm {
                id: args[0].cast_signed(),
                delay: args[1].cast_signed(),
            }),
            CallName::TkStpAlm => Call::Time(TimeCall::StpAlm {
                id: args[0].cast_signed(),
            }),
            CallName::TkDelAlm => Call::Time(TimeCall::DelAlm {
                id: args[0].cast_signed(),
            }),
            CallName::TkRefAlm => Call::Time(TimeCall::RefAlm {
                id: args[0].cast_signed(),
            }),
            CallName::TkDefInt => Call::Context(ContextCall::DefInt {
                number: args[0].cast_signed(),
                body: (args[1] % 256) as u8,
            }),
            CallName::TkDisDsp => Call::Context(ContextCall::DisDsp),
            CallName::TkEnaDsp => Call::Context(ContextCall::EnaDsp),
            CallName::Di => Call::Context(ContextCall::Di),
            CallName::Ei => Call::Context(ContextCall::Ei),
            CallName::TkRefSys => Call::Context(ContextCall::RefSys),
            CallName::TkDefSsy => Call::Context(ContextCall::DefSsy {
                number: args[0].cast_signed(),
                body: (args[1] % 256) as u8,
            }),
            CallName::TkRefSsy => Call::Context(ContextCall::RefSsy {
                number: args[0].cast_signed(),
            }),
            CallName::Svc => Call::Context(ContextCall::Svc {
                number: args[0].cast_signed(),
                value: args[1].cast_signed(),
            }),
            CallName::TkOpnDev => Call::Device(DeviceCall::OpnDev {
                device: (args[0] % 256) as u8,
                mode: OpenMode::of_bits(args[1]),
            }),
            CallName::TkReaDev => Call::Device(DeviceCall::ReaDev {
                descriptor: args[0].cast_signed(),
                start: args[1].cast_signed(),
                address: args[2].cast_signed(),
                size: args[3].cast_signed(),
                timeout: args[4].cast_signed(),
            }),
            CallName::TkWriDev => Call::Device(DeviceCall::WriDev {
                descriptor: args[0].cast_signed(),
                start: args[1].cast_signed(),
                address: args[2].cast_signed(),
                size: args[3].cast_signed(),
                timeout: args[4].cast_signed(),
            }),
            CallName::TkSreaDev => Call::Device(DeviceCall::SreaDev {
                descriptor: args[0].cast_signed(),
                start: args[1].cast_signed(),
                address: args[2].cast_signed(),
                size: args[3].cast_signed(),
            }),
            CallName::TkSwriDev => Call::Device(DeviceCall::SwriDev {
                descriptor: args[0].cast_signed(),
                start: args[1].cast_signed(),
                address: args[2].cast_signed(),
                size: args[3].cast_signed(),
            }),
            CallName::TkWaiDev => Call::Device(DeviceCall::WaiDev {
                descriptor: args[0].cast_signed(),
                request: args[1].cast_signed(),
                timeout: args[2].cast_signed(),
            }),
            CallName::TkClsDev => Call::Device(DeviceCall::ClsDev {
                descriptor: args[0].cast_signed(),
            }),
            CallName::TkSusDev => Call::Device(DeviceCall::SusDev {
                mode: SuspendMode::of_bits(args[0]),
            }),
            CallName::TkRefDev => Call::Device(DeviceCall::RefDev {
                device: (args[0] % 256) as u8,
            }),
            CallName::TdLstTsk => Call::Hook(HookCall::LstTsk {
                address: args[0].cast_signed(),
                most: args[1].cast_signed(),
            }),
            CallName::TdLstSem => Call::Hook(HookCall::LstSem {
                address: args[0].cast_signed(),
                most: args[1].cast_signed(),
            }),
            CallName::TdLstFlg => Call::Hook(HookCall::LstFlg {
                address: args[0].cast_signed(),
                most: args[1].cast_signed(),
            }),
            CallName::TdLstMbx => Call::Hook(HookCall::LstMbx {
                address: args[0].cast_signed(),
                most: args[1].cast_signed(),
            }),
            CallName::TdLstMtx => Call::Hook(HookCall::LstMtx {
                address: args[0].cast_signed(),
                most: args[1].cast_signed(),
            }),
            CallName::TdLstMbf => Call::Hook(HookCall::LstMbf {
                address: args[0].cast_signed(),
                most: args[1].cast_signed(),
            }),
            CallName::TdLstMpf => Call::Hook(HookCall::LstMpf {
                address: args[0].cast_signed(),
                most: args[1].cast_signed(),
            }),
            CallName::TdLstMpl => Call::Hook(HookCall::LstMpl {
                address: args[0].cast_signed(),
                most: args[1].cast_signed(),
            }),
            CallName::TdLstCyc => Call::Hook(HookCall::LstCyc {
                address: args[0].cast_signed(),
                most: args[1].cast_signed(),
            }),
            CallName::TdLstAlm => Call::Hook(HookCall::LstAlm {
                address: args[0].cast_signed(),
                most: args[1].cast_signed(),
            }),
            CallName::TdLstSsy => Call::Hook(HookCall::LstSsy {
                address: args[0].cast_signed(),
                most: args[1].cast_signed(),
            }),
            CallName::TdRdyQue => Call::Hook(HookCall::RdyQue {
                priority: args[0].cast_signed(),
                address: args[1].cast_signed(),
                most: args[2].cast_signed(),
            }),
            CallName::TdSemQue => Call::Hook(HookCall::SemQue {
                id: args[0].cast_signed(),
                address: args[1].cast_signed(),
                most: args[2].cast_signed(),
            }),
            CallName::TdFlgQue => Call::Hook(HookCall::FlgQue {
                id: args[0].cast_signed(),
                address: args[1].cast_signed(),
                most: args[2].cast_signed(),
            }),
            CallName::TdMbxQue => Call::Hook(HookCall::MbxQue {
                id: args[0].cast_signed(),
                address: args[1].cast_signed(),
                most: args[2].cast_signed(),
            }),
            CallName::TdMtxQue => Call::Hook(HookCall::MtxQue {
                id: args[0].cast_signed(),
                address: args[1].cast_signed(),
                most: args[2].cast_signed(),
            }),
            CallName::TdSmbfQue => Call::Hook(HookCall::SmbfQue {
                id: args[0].cast_signed(),
                address: args[1].cast_signed(),
                most: args[2].cast_signed(),
            }),
            CallName::TdRmbfQue => Call::Hook(HookCall::RmbfQue {
                id: args[0].cast_signed(),
                address: args[1].cast_signed(),
                most: args[2].cast_signed(),
            }),
            CallName::TdMpfQue => Call::Hook(HookCall::MpfQue {
                id: args[0].cast_signed(),
                address: args[1].cast_signed(),
                most: args[2].cast_signed(),
            }),
            CallName::TdMplQue => Call::Hook(HookCall::MplQue {
                id: args[0].cast_signed(),
                address: args[1].cast_signed(),
                most: args[2].cast_signed(),
            }),
            CallName::TdHokSvc => Call::Hook(HookCall::HokSvc {
                value: args[0].cast_signed(),
            }),
            CallName::TdHokDsp => Call::Hook(HookCall::HokDsp {
                value: args[0].cast_signed(),
            }),
            CallName::TdHokInt => Call::Hook(HookCall::HokInt {
                value: args[0].cast_signed(),
            }),
        }
    }

    /// The name of the call.
    #[tactic(auto, unfolding(crate::specs::Calls::name_of))]
    pub fn name(&self) -> CallName
        ensures { result ≡ name_of self.now }
    {
        match self {
            Call::Task(call) => call.name(),
            Call::SemFlag(call) => call.name(),
            Call::Mutex(call) => call.name(),
            Call::Mail(call) => call.name(),
            Call::Pool(call) => call.name(),
            Call::Time(call) => call.name(),
            Call::Context(call) => call.name(),
            Call::Device(call) => call.name(),
            Call::Hook(call) => call.name(),
        }
    }
}

impl TaskCall {
    /// The name of the call.
    #[tactic(auto, unfolding(crate::specs::Calls::task_call_name))]
    pub fn name(&self) -> CallName
        ensures { result ≡ task_call_name self.now }
    {
        match self {
            TaskCall::CreTsk { .. } => CallName::TkCreTsk,
            TaskCall::DelTsk { .. } => CallName::TkDelTsk,
            TaskCall::StaTsk { .. } => CallName::TkStaTsk,
            TaskCall::ExtTsk => CallName::TkExtTsk,
            TaskCall::ExdTsk => CallName::TkExdTsk,
            TaskCall::TerTsk { .. } => CallName::TkTerTsk,
            TaskCall::ChgPri { .. } => CallName::TkChgPri,
            TaskCall::RotRdq { .. } => CallName::TkRotRdq,
            TaskCall::GetTid => CallName::TkGetTid,
            TaskCall::RefTsk { .. } => CallName::TkRefTsk,
            TaskCall::SlpTsk { .. } => CallName::TkSlpTsk,
            TaskCall::WupTsk { .. } => CallName::TkWupTsk,
            TaskCall::CanWup { .. } => CallName::TkCanWup,
            TaskCall::RelWai { .. } => CallName::TkRelWai,
            TaskCall::SusTsk { .. } => CallName::TkSusTsk,
            TaskCall::RsmTsk { .. } => CallName::TkRsmTsk,
            TaskCall::FrsmTsk { .. } => CallName::TkFrsmTsk,
            TaskCall::DlyTsk { .. } => CallName::TkDlyTsk,
        }
    }
}

impl SemFlagCall {
    /// The name of the call.
    #[tactic(auto, unfolding(crate::specs::Calls::sem_flag_call_name))]
    pub fn name(&self) -> CallName
        ensures { result ≡ sem_flag_call_name self.now }
    {
        match self {
            SemFlagCall::CreSem { .. } => CallName::TkCreSem,
            SemFlagCall::SigSem { .. } => CallName::TkSigSem,
            SemFlagCall::WaiSem { .. } => CallName::TkWaiSem,
            SemFlagCall::RefSem { .. } => CallName::TkRefSem,
            SemFlagCall::CreFlg { .. } => CallName::TkCreFlg,
            SemFlagCall::SetFlg { .. } => CallName::TkSetFlg,
            SemFlagCall::ClrFlg { .. } => CallName::TkClrFlg,
            SemFlagCall::WaiFlg { .. } => CallName::TkWaiFlg,
            SemFlagCall::RefFlg { .. } => CallName::TkRefFlg,
            SemFlagCall::DelSem { .. } => CallName::TkDelSem,
            SemFlagCall::DelFlg { .. } => CallName::TkDelFlg,
        }
    }
}

impl MutexCall {
    /// The name of the call.
    #[tactic(auto, unfolding(crate::specs::Calls::mutex_call_name))]
    pub fn name(&self) -> CallName
        ensures { result ≡ mutex_call_name self.now }
    {
        match self {
            MutexCall::CreMtx { .. } => CallName::TkCreMtx,
            MutexCall::LocMtx { .. } => CallName::TkLocMtx,
            MutexCall::UnlMtx { .. } => CallName::TkUnlMtx,
            MutexCall::RefMtx { .. } => CallName::TkRefMtx,
            MutexCall::DelMtx { .. } => CallName::TkDelMtx,
        }
    }
}

impl MailCall {
    /// The name of the call.
    #[tactic(auto, unfolding(crate::specs::Calls::mail_call_name))]
    pub fn name(&self) -> CallName
        ensures { result ≡ mail_call_name self.now }
    {
        match self {
            MailCall::CreMbx { .. } => CallName::TkCreMbx,
            MailCall::DelMbx { .. } => CallName::TkDelMbx,
            MailCall::SndMbx { .. } => CallName::TkSndMbx,
            MailCall::RcvMbx { .. } => CallName::TkRcvMbx,
            MailCall::RefMbx { .. } => CallName::TkRefMbx,
            MailCall::CreMbf { .. } => CallName::TkCreMbf,
            MailCall::SndMbf { .. } => CallName::TkSndMbf,
            MailCall::RcvMbf { .. } => CallName::TkRcvMbf,
            MailCall::RefMbf { .. } => CallName::TkRefMbf,
            MailCall::DelMbf { .. } => CallName::TkDelMbf,
        }
    }
}

impl PoolCall {
    /// The name of the call.
    #[tactic(auto, unfolding(crate::specs::Calls::pool_call_name))]
    pub fn name(&self) -> CallName
        ensures { result ≡ pool_call_name self.now }
    {
        match self {
            PoolCall::CreMpf { .. } => CallName::TkCreMpf,
            PoolCall::DelMpf { .. } => CallName::TkDelMpf,
            PoolCall::GetMpf { .. } => CallName::TkGetMpf,
            PoolCall::RelMpf { .. } => CallName::TkRelMpf,
            PoolCall::RefMpf { .. } => CallName::TkRefMpf,
            PoolCall::CreMpl { .. } => CallName::TkCreMpl,
            PoolCall::DelMpl { .. } => CallName::TkDelMpl,
            PoolCall::GetMpl { .. } => CallName::TkGetMpl,
            PoolCall::RelMpl { .. } => CallName::TkRelMpl,
            PoolCall::RefMpl { .. } => CallName::TkRefMpl,
        }
    }
}

impl TimeCall {
    /// The name of the call.
    #[tactic(auto, unfolding(crate::specs::Calls::time_call_name))]
    pub fn name(&self) -> CallName
        ensures { result ≡ time_call_name self.now }
    {
        match self {
            TimeCall::SetTim { .. } => CallName::TkSetTim,
            TimeCall::GetTim => CallName::TkGetTim,
            TimeCall::GetOtm => CallName::TkGetOtm,
            TimeCall::CreCyc { .. } => CallName::TkCreCyc,
            TimeCall::StaCyc { .. } => CallName::TkStaCyc,
            TimeCall::StpCyc { .. } => CallName::TkStpCyc,
            TimeCall::DelCyc { .. } => CallName::TkDelCyc,
            TimeCall::RefCyc { .. } => CallName::TkRefCyc,
            TimeCall::CreAlm { .. } => CallName::TkCreAlm,
            TimeCall::StaAlm { .. } => CallName::TkStaAlm,
            TimeCall::StpAlm { .. } => CallName::TkStpAlm,
            TimeCall::DelAlm { .. } => CallName::TkDelAlm,
            TimeCall::RefAlm { .. } => CallName::TkRefAlm,
        }
    }
}

impl ContextCall {
    /// The name of the call.
    #[tactic(auto, unfolding(crate::specs::Calls::context_call_name))]
    pub fn name(&self) -> CallName
        ensures { result ≡ context_call_name self.now }
    {
        match self {
            ContextCall::DefInt { .. } => CallName::TkDefInt,
            ContextCall::DisDsp => CallName::TkDisDsp,
            ContextCall::EnaDsp => CallName::TkEnaDsp,
            ContextCall::Di => CallName::Di,
            ContextCall::Ei => CallName::Ei,
            ContextCall::RefSys => CallName::TkRefSys,
            ContextCall::DefSsy { .. } => CallName::TkDefSsy,
            ContextCall::RefSsy { .. } => CallName::TkRefSsy,
            ContextCall::Svc { .. } => CallName::Svc,
        }
    }
}

impl DeviceCall {
    /// The name of the call.
    #[tactic(auto, unfolding(crate::specs::Calls::device_call_name))]
    pub fn name(&self) -> CallName
        ensures { result ≡ device_call_name self.now }
    {
        match self {
            DeviceCall::OpnDev { .. } => CallName::TkOpnDev,
            DeviceCall::ReaDev { .. } => CallName::TkReaDev,
            DeviceCall::WriDev { .. } => CallName::TkWriDev,
            DeviceCall::SreaDev { .. } => CallName::TkSreaDev,
            DeviceCall::SwriDev { .. } => CallName::TkSwriDev,
            DeviceCall::WaiDev { .. } => CallName::TkWaiDev,
            DeviceCall::ClsDev { .. } => CallName::TkClsDev,
            DeviceCall::SusDev { .. } => CallName::TkSusDev,
            DeviceCall::RefDev { .. } => CallName::TkRefDev,
        }
    }
}

impl HookCall {
    /// The name of the call.
    #[tactic(auto, unfolding(crate::specs::Calls::hook_call_name))]
    pub fn name(&self) -> CallName
        ensures { result ≡ hook_call_name self.now }
    {
        match self {
            HookCall::LstTsk { .. } => CallName::TdLstTsk,
            HookCall::LstSem { .. } => CallName::TdLstSem,
            HookCall::LstFlg { .. } => CallName::TdLstFlg,
            HookCall::LstMbx { .. } => CallName::TdLstMbx,
            HookCall::LstMtx { .. } => CallName::TdLstMtx,
            HookCall::LstMbf { .. } => CallName::TdLstMbf,
            HookCall::LstMpf { .. } => CallName::TdLstMpf,
            HookCall::LstMpl { .. } => CallName::TdLstMpl,
            HookCall::LstCyc { .. } => CallName::TdLstCyc,
            HookCall::LstAlm { .. } => CallName::TdLstAlm,
            HookCall::LstSsy { .. } => CallName::TdLstSsy,
            HookCall::RdyQue { .. } => CallName::TdRdyQue,
            HookCall::SemQue { .. } => CallName::TdSemQue,
            HookCall::FlgQue { .. } => CallName::TdFlgQue,
            HookCall::MbxQue { .. } => CallName::TdMbxQue,
            HookCall::MtxQue { .. } => CallName::TdMtxQue,
            HookCall::SmbfQue { .. } => CallName::TdSmbfQue,
            HookCall::RmbfQue { .. } => CallName::TdRmbfQue,
            HookCall::MpfQue { .. } => CallName::TdMpfQue,
            HookCall::MplQue { .. } => CallName::TdMplQue,
            HookCall::HokSvc { .. } => CallName::TdHokSvc,
            HookCall::HokDsp { .. } => CallName::TdHokDsp,
            HookCall::HokInt { .. } => CallName::TdHokInt,
        }
    }
}
